//! An object that a thread has sent.

ghost use Rattle.std.specs.Prelude.{◌≡◌};
ghost use Rattle.bd_sendings.specs.Sendings.{is_of as it_is_of, is_told as it_is_told, is_elsewhere as it_is_elsewhere, is_held as it_is_held, goes as it_goes, strong_one, weak_one};

/// An object that a thread has sent, without having read yet that it was taken.
#[derive(Clone, Copy, Debug, PartialEq, Eq)]
pub struct Sent {
    /// The thread.
    pub sender: u32,
    /// The object's ptr.
    pub ptr: u64,
    /// The place of the step that sent it.
    pub step: u64,
    /// The process that it was sent to. 0: it isn't known.
    pub receiver: u32,
    /// How often that one had let go of buffers with objects.
    pub let_go: u32,
    /// It was sent as a strong reference.
    pub is_strong: bool,
    /// Another thread is told of it, which has sent it before.
    pub is_others: bool,
}

/// A call or reply that was taken.
#[derive(Clone, Copy, Debug, PartialEq, Eq)]
pub struct Sending {
    /// The thread that sends it.
    pub sender: u32,
    /// The place of its step.
    pub step: u64,
    /// The process that it goes to. 0: it isn't known.
    pub receiver: u32,
    /// How often that one has let go of buffers with objects.
    pub let_go: u32,
}

impl Sent {
    // The thread has sent it, and it is this object.
    pub(crate) fn is_of(&self, thread: u32, ptr: u64) -> bool
        ensures { result ≡ it_is_of thread ptr self.now }
    {
        self.sender == thread && self.ptr == ptr
    }

    // Its sender is told of it.
    pub(crate) fn is_told(&self, ptr: u64) -> bool
        ensures { result ≡ it_is_told ptr self.now }
    {
        self.ptr == ptr && !self.is_others
    }

    // Another thread than this is told of it.
    pub(crate) fn is_elsewhere(&self, thread: u32, ptr: u64) -> bool
        ensures { result ≡ it_is_elsewhere thread ptr self.now }
    {
        self.sender != thread && self.is_told(ptr)
    }

    // The sending's receiver has a strong reference by it.
    pub(crate) fn is_held(&self, sending: &Sending) -> bool
        ensures { result ≡ it_is_held sending.now self.now }
    {
        let is_same = sending.receiver != 0
            && self.receiver == sending.receiver
            && self.let_go == sending.let_go;
        self.is_strong && (self.step == sending.step || is_same)
    }

    // It is known no longer once that object is sent.
    pub(crate) fn goes(&self, thread: u32, ptr: u64, is_others: bool) -> bool
        ensures { result ≡ it_goes thread ptr is_others self.now }
    {
        self.is_of(thread, ptr) || (!is_others && self.is_told(ptr))
    }

    // As it is known that was sent as a strong reference.
    pub(crate) fn strong(sending: &Sending, ptr: u64, is_others: bool) -> Sent
        ensures { result ≡ strong_one sending.now ptr is_others }
    {
        Sent {
            sender: sending.sender,
            ptr,
            step: sending.step,
            receiver: sending.receiver,
            let_go: sending.let_go,
            is_strong: true,
            is_others,
        }
    }

    // The same of a weak one, by which nobody has a strong reference.
    pub(crate) fn weak(thread: u32, ptr: u64) -> Sent
        ensures { result ≡ weak_one thread ptr }
    {
        Sent {
            sender: thread,
            ptr,
            step: 0,
            receiver: 0,
            let_go: 0,
            is_strong: false,
            is_others: false,
        }
    }
}
