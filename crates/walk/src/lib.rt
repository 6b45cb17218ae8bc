// The walk through page tables, as the IOMMU does it.
#![tactic(auto)]

mod access;
mod index;
mod pages;

pub use access::walk;
pub use index::indices;
pub use pages::reach;

#[cfg(test)]
mod tests {
    use super::{indices, reach, walk};
    use units::{Access, Card, DeviceAddress, DevicePage, Fault, FaultKind};

    #[test]
    fn parts_of_a_device_address(rt: HostRuntime) {
        assert_eq!(rt; indices(DeviceAddress(0xffff_f100)), [0, 3, 511, 511]);
    }

    // Card 0 reads frame 7 at page 5, and nothing else is open.
    fn tables() -> [u64; 2048] {
        let mut words = [0; 2048];
        words[0] = 0x1003;
        words[512] = 0x2003;
        words[1024] = 0x3003;
        words[1541] = 0x7001;
        words
    }

    fn walk_to(page: u64, access: Access) -> Result<u64, Fault> {
        walk(&tables(), Card(0), DevicePage(page), access).map(|entry| entry.word())
    }

    #[test]
    fn where_walks_end(rt: HostRuntime) {
        assert_eq!(rt; walk_to(5, Access::Read), Ok(0x7001));
        assert_eq!(rt; walk_to(5, Access::Write), Err(FaultKind::Lacking.at(1)));
        assert_eq!(rt; walk_to(6, Access::Read), Err(FaultKind::Absent.at(1)));
        assert_eq!(rt; walk_to(512, Access::Read), Err(FaultKind::Absent.at(2)));
        assert_eq!(rt;
            walk_to(0x4_0000, Access::Read),
            Err(FaultKind::Absent.at(3))
        );
        assert_eq!(rt;
            walk_to(0x800_0000, Access::Read),
            Err(FaultKind::Absent.at(4))
        );
    }

    #[test]
    fn what_is_reached(rt: HostRuntime) {
        let reached = reach(&tables(), 1, Card(0), DevicePage(5)).map(|reach| (
            reach.frame.0,
            reach.rights.read,
            reach.rights.write,
        ));
        assert_eq!(rt; reached, Some((7, true, false)));
        assert_eq!(rt; reach(&tables(), 1, Card(0), DevicePage(6)), None);
        assert_eq!(rt; reach(&tables(), 0, Card(0), DevicePage(5)), None);
    }
}
