//! Headings, good and broken.
#![tactic(auto)]

#[cfg(test)]
mod tests {
    use feed::{Heading, ReadFault};
    use std::test::Fail;

    #[test]
    fn headings_name_a_place_kind(rt: HostRuntime) {
        assert_eq!(rt; feed::read_heading(&[6, 0, 0, 0, 1, 0]), Ok(Heading::Plane));
        assert_eq!(rt;
            feed::read_heading(&[6, 0, 0, 0, 4, 0, 9]),
            Ok(Heading::CourseByWater)
        );
        assert_eq!(rt;
            feed::read_heading(&[6, 0, 0, 0, 5, 0]),
            Err(ReadFault::NoPlaceKind)
        );
        assert_eq!(rt;
            feed::read_heading(&[6, 0, 0, 0, 1, 1]),
            Err(ReadFault::NoPlaceKind)
        );
    }

    #[test]
    fn checks_come_in_order(rt: HostRuntime) {
        assert_eq!(rt; feed::read_heading(&[4]), Err(ReadFault::Cut));
        assert_eq!(rt; feed::read_heading(&[3, 0, 1, 0]), Err(ReadFault::Cut));
        assert_eq!(rt;
            feed::read_heading(&[7, 0, 1, 0, 5, 0]),
            Err(ReadFault::Cut)
        );
        assert_eq!(rt;
            feed::read_heading(&[4, 0, 1, 0]),
            Err(ReadFault::WrongKind)
        );
        assert_eq!(rt;
            feed::read_heading(&[4, 0, 0, 0]),
            Err(ReadFault::WrongLength)
        );
        assert_eq!(rt;
            feed::read_heading(&[7, 0, 0, 0, 5, 0, 0]),
            Err(ReadFault::WrongLength)
        );
    }

    #[test]
    fn lines(rt: HostRuntime) -> Result<(), Fail> {
        let heap = rt.alloc();
        assert_eq!(rt;
            feed::heading_line(heap, &[6, 0, 0, 0, 1, 0])?.as_str(),
            "0 ok"
        );
        assert_eq!(rt;
            feed::heading_line(heap, &[])?.as_str(),
            "0 fault 6 feed at 0"
        );
        assert_eq!(rt;
            feed::heading_line(heap, &[6, 0, 0, 0, 0, 0])?.as_str(),
            "0 fault 10 feed at 0"
        );
        Ok(())
    }
}
