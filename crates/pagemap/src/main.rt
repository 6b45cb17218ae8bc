// Reads a script from standard input, runs it over the shared rack, and prints the words of the tables and the pages that they lead to.
#![tactic(auto)]

use mapper::Mapper;
use player::read_script;
use rack::{open_pages, run_shared};
use session::Session;
use tables::Tables;
use units::{Card, Rights};

// Prints each word that is not 0, with its table and its index there.
fn print_words(rt: &HostRuntime, tables: &Tables<'_>) -> anyhow::Result<()> {
    for (at, word) in tables.words.iter().enumerate() {
        let table = at / 512;
        let index = at % 512;
        if *word != 0 {
            println!(rt; "word {table} {index} {word:016x}")?;
        }
    }
    Ok(())
}

// How rights are printed.
fn letters(rights: Rights) -> &'static str {
    match (rights.read, rights.write) {
        (true, true) => "rw",
        (true, false) => "r-",
        (false, true) => "-w",
        (false, false) => "--",
    }
}

// Prints each page that a card reaches, with its frame and rights.
fn print_pages(rt: &HostRuntime, tables: &Tables<'_>) -> anyhow::Result<()> {
    for card in 0..tables.cards() {
        for found in open_pages(rt.alloc(), tables, Card(card))? {
            let page = found.page.0;
            let frame = found.reach.frame.0;
            let rights = letters(found.reach.rights);
            println!(rt; "page {card} {page} frame {frame} {rights}")?;
        }
    }
    Ok(())
}

fn pagemap(rt: &HostRuntime) -> anyhow::Result<()> {
    let heap = rt.alloc();
    let script = read_script(rt)?;
    let mut session = Session::read(heap, script.as_slice())?;
    let mut memory = vec![in heap; 0u8; 32768]?;
    let mut words = [0; 5120];
    let engine = run_shared(
        &mut words,
        memory.as_mut_slice(),
        session.steps.as_mut_slice(),
    );
    let tables = &engine.mapper.lower;
    print_words(rt, tables)?;
    print_pages(rt, tables)
}

fn main(rt: HostRuntime) -> anyhow::Result<()> {
    pagemap(&rt)
}
