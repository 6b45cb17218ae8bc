// A word of a page table as the IOMMU reads it.
#![tactic(auto)]

mod entry;

pub use entry::Entry;

#[cfg(test)]
mod tests {
    use super::Entry;
    use units::{Direction, Frame};

    #[test]
    fn frame_and_direction(rt: HostRuntime) {
        assert_eq!(rt; Entry::page(Frame(7), Direction::Both).word(), 0x7003);
        assert_eq!(rt; Entry::page(Frame(0), Direction::FromCard).word(), 0x2);
        assert_eq!(rt;
            Entry::page(Frame(1023), Direction::ToCard).word(),
            0x3f_f001
        );
        assert_eq!(rt; Entry::table(64).word(), 0x4_0003);
    }

    #[test]
    fn words_that_are_no_entry(rt: HostRuntime) {
        for word in [0x7007, 0x7803, 0x10_0000_0000_7003, 0x7000] {
            assert_eq!(rt; Entry::of(&word), None);
        }
    }

    #[test]
    fn what_an_entry_says(rt: HostRuntime) {
        let entry = Entry::of(&0x7002).map(|entry| (
            entry.number(),
            entry.rights().read,
            entry.rights().write,
        ));
        assert_eq!(rt; entry, Some((7, false, true)));
        assert_eq!(rt; Entry::of(&0).map(|entry| entry.is_present()), Some(false));
    }
}
