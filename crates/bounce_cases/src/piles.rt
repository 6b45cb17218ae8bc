// Piles of layers for 2 cards, each with device pages 1 to `last`, and nothing open. There are 8 frames where no number is given.
use bounce::Bounce;
use engine::Engine;
use mapper::Mapper;
use tables::Tables;
use units::{DevicePage, Frame, Geometry};
use windows::Windows;

// The last device page of cards whose pages are never short.
pub const LAST: u64 = 0xfffff;

fn geometry(last: u64, frames: u32) -> Geometry {
    Geometry {
        cards: 2,
        lasts: [DevicePage(last); 4],
        frames,
    }
}

pub fn windows(last: u64) -> Windows {
    windows_of(last, 8)
}

pub fn windows_of(last: u64, frames: u32) -> Windows {
    Windows::set_up(geometry(last, frames))
}

// `count` tables, of 512 words each.
pub fn tables(last: u64, count: u8, words: &mut [u64]) -> Tables<'_> {
    Tables::set_up(geometry(last, 8), count, words)
}

// One layer, with pool frames 6 and 7.
pub fn layer_over<M: Mapper>(mapper: M) -> Engine<Bounce<M>> {
    pool_over(mapper, 6, 2)
}

// One layer, with `count` pool frames from `first` on.
pub fn pool_over<M: Mapper>(mapper: M, first: u32, count: u32) -> Engine<Bounce<M>> {
    Engine::over(Bounce::over(mapper, Frame(first), count))
}

// A layer with pool frames 4 and 5 over one with pool frames 6 and 7.
pub fn two_layers_over<M: Mapper>(mapper: M) -> Engine<Bounce<Bounce<M>>> {
    apart_over(mapper, 6, 4)
}

// A layer over another, each with 2 pool frames: those of the lower from `lower` on, those of the outer from `outer` on.
pub fn apart_over<M: Mapper>(mapper: M, lower: u32, outer: u32) -> Engine<Bounce<Bounce<M>>> {
    let below = Bounce::over(mapper, Frame(lower), 2);
    Engine::over(Bounce::over(below, Frame(outer), 2))
}
