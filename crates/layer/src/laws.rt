// What holds of a layer over any mapper.
ghost use Rattle.std.specs.Prelude.{◌≡◌, ℕ, ◌<◌, List};
ghost use Rattle.units.specs.declared.mapping.Mapping.{Mapping as Opened};
ghost use Rattle.units.specs.declared.mapping.Request.{Request as Asked};
ghost use Rattle.meaning.specs.Mappings.{reach_of};
ghost use Rattle.meaning.specs.Laws.{Bounced};
ghost use Rattle.meaning.specs.Worlds.{Setup};
ghost use Rattle.layer.specs.Lowering.{lowered};
ghost use Rattle.layer.specs.Pools.{pool_count};
ghost use Rattle.layer.specs.Choosing.{layer_kind, LayerChooses};
ghost use Rattle.layer.specs.Possible.{layer_possible};
ghost use Rattle.layer.specs.Lawful.{Lawful};

use mapper::Meaning;

// It is lawful, as the mapper below is. A buffer that is not whole lands in reserved frames. A card reaches what it reaches below.
// Where it has a pool, it refuses with 9 exactly a buffer that is not whole and whose span no gap of pool frames holds.
#[tactic(auto, using(crate::proofs::Lawful::over_any, crate::proofs::Lawful::bounced_over_any, crate::proofs::Lowered::reach_lowered, crate::proofs::Choosing::choice_words))]
pub fn layer_keeps_the_laws<M: Meaning>()
    ensures lawful { Lawful (layer_kind M.Meaning.kind) (layer_possible M.Meaning.kind M.Meaning.possible) }
    ensures bounced { (S : Setup) (o : List Opened) → layer_possible M.Meaning.kind M.Meaning.possible S o → Bounced ((layer_kind M.Meaning.kind).reserved S) o }
    ensures reach { (o : List Opened) (c p : ℕ) → reach_of (lowered o) c p ≡ reach_of o c p }
    ensures choosing { (S : Setup) (o : List Opened) (r : Asked) → 0 < pool_count S → 0 < r.buffer.length → LayerChooses M.Meaning.kind.choice S o r ((layer_kind M.Meaning.kind).choice S o r) }
{}
