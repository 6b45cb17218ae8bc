// Runs the script on standard input over the shared rack, and prints each record's answer and each card's blocks.
#![tactic(auto)]

use player::replay;

fn main(rt: HostRuntime) -> anyhow::Result<()> {
    replay(&rt)
}
