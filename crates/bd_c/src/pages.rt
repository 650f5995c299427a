//! The page, as C is told it.
use bd_driver::Page;

/// A page as one look found it.
#[repr(C)]
#[derive(Clone, Copy)]
pub struct PageTold {
    /// How many steps the history has.
    pub stamp: u32,
    /// The seats that have something to read, bit i for seat i.
    pub ready: u32,
    /// Whether a seat has the engine.
    pub taken: bool,
}

impl PageTold {
    ghost use Rattle.std.specs.Prelude.{◌≡◌};
    ghost use Rattle.bd_c.specs.Pages.{page_told};

    /// What a page is told as.
    pub(crate) fn of(page: Page) -> PageTold
        ensures { result ≡ page_told page }
    {
        PageTold {
            stamp: page.stamp,
            ready: page.ready,
            taken: page.taken,
        }
    }
}
