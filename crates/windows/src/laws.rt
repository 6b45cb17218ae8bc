// What the windows are to all above them, and their laws.
ghost use Rattle.pages.specs.Lawful.{Possible};
ghost use Rattle.window_table.specs.Choosing.{setup_of, window_kind};
ghost use Rattle.window_table.specs.Left.{WindowsLeft};
ghost use Rattle.slots.specs.Slots.{opened_of, reach_in};
ghost use Rattle.window_table.proofs.Laws.{window_kept, window_disjoint, window_reach, window_landing, window_room, window_refusals, window_bounds};

use crate::windows::Windows;
use mapper::Meaning;

impl Meaning for Windows {
    ghost setup = { λ w. setup_of w.geometry };

    ghost opened = { λ w. opened_of w.table.slots };

    ghost reach = { λ w. reach_in w.table.slots };

    ghost kind = { window_kind };

    ghost leaves = { λ w t v. WindowsLeft w.table.slots t v.table.slots };

    ghost possible = { Possible };

    ghost standing = { λ w. (w.ranged, w.kept) };

    ghost kept = { window_kept };

    ghost disjoint_pages = { window_disjoint };

    ghost exact_reach = { λ w c p. window_reach (setup_of w.geometry) w.table.slots w.kept c p };

    ghost landing = { window_landing };

    ghost empty_room = { window_room };

    ghost refusals = { window_refusals };

    ghost bounds = { window_bounds };
}
