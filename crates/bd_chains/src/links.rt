//! What stands in the slots: a value with its neighbours, and the two ends of a list.

/// A value, and whether its list counts it.
#[derive(Clone, Copy)]
pub struct Held<T> {
    pub value: T,
    pub counted: bool,
}

/// A value in its slot: the list that it is on, and its neighbours there.
#[derive(Clone, Copy)]
pub struct Item<T> {
    pub held: Held<T>,
    pub list: usize,
    // None where it is the first.
    pub prev: Option<usize>,
    // None where it is the last.
    pub next: Option<usize>,
}

/// Who stands before a place on a list and who after it, if any.
#[derive(Clone, Copy)]
pub struct Gap {
    pub prev: Option<usize>,
    pub next: Option<usize>,
}

/// A list's record: its two ends, and a count.
#[derive(Clone, Copy)]
pub struct Ends {
    pub first: Option<usize>,
    pub last: Option<usize>,
    pub counted: u64,
}
