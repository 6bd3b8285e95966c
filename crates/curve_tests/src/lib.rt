//! Edges of the grid.
#![tactic(auto)]

#[cfg(test)]
mod tests {
    use curve::Cell;

    #[test]
    fn numbers_end_at_4095(rt: HostRuntime) {
        assert_eq!(rt; curve::key_of(Cell { x: 4095, y: 4095 }), Some(11_184_810));
        assert_eq!(rt; curve::key_of(Cell { x: 4096, y: 0 }), None);
        assert_eq!(rt; curve::key_of(Cell { x: 0, y: 4096 }), None);
    }

    #[test]
    fn keys_end_at_16777215(rt: HostRuntime) {
        assert_eq!(rt; curve::cell_of(16_777_215), Some(Cell { x: 4095, y: 0 }));
        assert_eq!(rt; curve::cell_of(16_777_216), None);
    }

    #[test]
    fn cells_outside_do_not_compare(rt: HostRuntime) {
        let corner = Cell { x: 4095, y: 4095 };
        assert!(rt; curve::compare(corner, corner).is_some());
        assert!(rt; curve::compare(corner, Cell { x: 4096, y: 4095 }).is_none());
        assert!(rt; curve::compare(Cell { x: 4095, y: 4096 }, corner).is_none());
    }
}
