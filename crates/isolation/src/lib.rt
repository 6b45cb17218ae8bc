// The promise over two runs: what one card's accesses can change for all others.
#![tactic(auto)]

ghost use Rattle.isolation.specs.Example.{Example};
ghost use Rattle.isolation.specs.Promise.{Isolation, Standing};

// Over every mapper that shields, a card's accesses change nothing for the others but bytes that map accepted for its writing; and each of the others' calls stands in both runs.
pub fn isolation_holds() -> u8
    ensures promise { Isolation }
    ensures standing { Standing }
{
    0
}

// A mapper that shields, and two runs over it: the byte that was lent and written differs.
pub fn example_holds() -> u8
    ensures { Example }
{
    0
}
