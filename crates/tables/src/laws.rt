// What the tables are to all above them, and their laws.
ghost use Rattle.slots.specs.Slots.{opened_of};
ghost use Rattle.walk.specs.Walks.{reach_in};
ghost use Rattle.table_meaning.specs.Choosing.{setup_of, table_kind, TablesPossible};
ghost use Rattle.table_meaning.proofs.Laws.{tables_kept, tables_disjoint, tables_landing, tables_room, tables_refusals, tables_bounds};
ghost use Rattle.table_meaning.proofs.Exact.{tables_reach};
ghost use Rattle.tables.specs.Left.{TablesLeft};
ghost use Rattle.cache.specs.Held.{held};
ghost use Rattle.cache.specs.Posted.{posted};

use crate::tables::Tables;
use mapper::Meaning;

impl Meaning for Tables<'_> {
    ghost setup = { λ m. setup_of m.geometry m.count };

    ghost opened = { λ m. opened_of m.records.slots };

    // By walks of the words, as VT-d second-level paging has them.
    ghost reach = { λ m. reach_in m.geometry.cards m.words.now };

    ghost kind = { table_kind };

    ghost leaves = { λ m t n. TablesLeft m.geometry.cards m.count
        (record { tables = m.tables; words = m.words.now; records = m.records.slots; cache = held m.cache; queue = posted m.queue }) t
        (record { tables = n.tables; words = n.words.now; records = n.records.slots; cache = held n.cache; queue = posted n.queue }) };

    ghost possible = { TablesPossible };

    ghost standing = { λ m. m.possible };

    ghost kept = { tables_kept };

    ghost disjoint_pages = { tables_disjoint };

    ghost exact_reach = { λ m c p. tables_reach (setup_of m.geometry m.count) m.count m.tables (opened_of m.records.slots) m.words.now m.possible.0 m.fits c p };

    ghost landing = { tables_landing };

    ghost empty_room = { tables_room };

    ghost refusals = { tables_refusals };

    ghost bounds = { tables_bounds };
}
