// What a mapper is to all above it, and its laws.
ghost use Rattle.std.specs.Prelude.{◌≡◌, ℕ, List, Option};
ghost use Rattle.units.specs.declared.mapping.Mapping.{Mapping as Opened};
ghost use Rattle.units.specs.declared.mapping.Reach.{Reach as Reached};
ghost use Rattle.meaning.specs.Mappings.{reach_of};
ghost use Rattle.meaning.specs.Worlds.{Setup, Kind, world};
ghost use Rattle.meaning.specs.Laws.{DisjointPages, Landings, EmptyRoom, ChoiceRefusals, Bounds};
ghost use Rattle.meaning.specs.Calls.{Call};
ghost use Rattle.meaning.specs.Effects.{opens_after};
ghost use Rattle.mapper.specs.Tasks.{Task};

pub trait Meaning {
    ghost setup: { Self → Setup };

    ghost opened: { Self → List Opened };

    // What a card reaches at a device page, worked out from what the mapper holds now.
    ghost reach: { Self → ℕ → ℕ → Option Reached };

    // Reserved frames, choice and block level, as functions of set-up and open mappings.
    ghost kind: { Kind };

    // What an accepted call leaves of the parts that the meaning does not show.
    ghost leaves: { Self → Task → Self → Type 0 };

    // The lists of open mappings that a set-up and calls can lead to, and every call keeps to them.
    ghost possible: { Setup → List Opened → Type 0 };

    ghost standing: { (m : Self) → possible (setup m) (opened m) };

    ghost kept: { (S : Setup) (o : List Opened) (n : ℕ) (c : Call) → possible S o → possible S (opens_after (world kind S n) o c) };

    // The four laws, at every list of open mappings that calls can lead to.
    ghost disjoint_pages: { (S : Setup) (o : List Opened) → possible S o → DisjointPages S o };

    ghost exact_reach: { (m : Self) (c p : ℕ) → reach m c p ≡ reach_of (opened m) c p };

    ghost landing: { (S : Setup) (o : List Opened) → possible S o → Landings (kind.reserved S) o };

    ghost empty_room: { (S : Setup) (o : List Opened) → possible S o → EmptyRoom kind S };

    // A choice refuses with 9 to 12 only.
    ghost refusals: { (S : Setup) (o : List Opened) → possible S o → ChoiceRefusals kind S o };

    // The bounds of set-up and of each open mapping.
    ghost bounds: { (S : Setup) (o : List Opened) → possible S o → Bounds S (kind.reserved S) o };
}
