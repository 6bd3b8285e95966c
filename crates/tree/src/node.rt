//! One slot of the tree, and what is worked on of it.
ghost use Rattle.std.specs.Prelude.{◌≡◌, if◌then◌else◌};

use buckets::Entry;

/// A set's place, its children, and the join, count and height of its tree. A count of 0 marks a slot not in use.
#[derive(Clone, Copy)]
pub struct Node<P, R> {
    pub place: P,
    pub join: R,
    pub left: u16,
    pub right: u16,
    pub count: u16,
    pub height: u8,
}

// What is given of a node: its entry, and the slots of its two children, 0 where there is none.
#[derive(Clone, Copy)]
pub(crate) struct Branch<P> {
    pub(crate) entry: Entry<P>,
    pub(crate) left: u16,
    pub(crate) right: u16,
}

impl<P: Copy> Branch<P> {
    // The left child where the test holds, else the right one.
    pub(crate) fn child(self, goes_left: bool) -> u16
        ensures { result ≡ (if goes_left then self.left else self.right) }
    {
        if goes_left { self.left } else { self.right }
    }

    // The two children, with another in place of that one.
    pub(crate) fn with_child(self, goes_left: bool, child: u16) -> (u16, u16)
        ensures left { result.0 ≡ (if goes_left then child else self.left) }
        ensures right { result.1 ≡ (if goes_left then self.right else child) }
    {
        if goes_left {
            (child, self.right)
        } else {
            (self.left, child)
        }
    }
}

// Three trees with two entries between them: the trees at `first`, `second` and `third`, 0 where there is none.
#[derive(Clone, Copy)]
pub(crate) struct Apart<P> {
    pub(crate) first: u16,
    pub(crate) low: Entry<P>,
    pub(crate) second: u16,
    pub(crate) high: Entry<P>,
    pub(crate) third: u16,
}
