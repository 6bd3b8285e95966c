//! Edges of buckets.
#![tactic(auto)]

#[cfg(test)]
mod tests {
    use buckets::Ends;

    fn ends(first: u16, last: u16) -> Option<Ends> {
        Some(Ends { first, last })
    }

    #[test]
    fn edges_of_a_size(rt: HostRuntime) {
        assert_eq!(rt; buckets::bucket_ends(9, 10, 0), None);
        assert_eq!(rt; buckets::bucket_ends(10, 10, 9), ends(0, 9));
        assert_eq!(rt; buckets::bucket_ends(19, 10, 0), ends(0, 18));
        assert_eq!(rt; buckets::bucket_ends(19, 10, 18), ends(0, 18));
        assert_eq!(rt; buckets::bucket_ends(20, 10, 9), ends(0, 9));
        assert_eq!(rt; buckets::bucket_ends(20, 10, 10), ends(10, 19));
    }

    #[test]
    fn no_size_and_no_rank(rt: HostRuntime) {
        assert_eq!(rt; buckets::bucket_ends(10, 0, 0), None);
        assert_eq!(rt; buckets::bucket_ends(10, 2, 10), None);
        assert_eq!(rt; buckets::bucket_ends(4095, 64, 4094), ends(3968, 4094));
    }
}
