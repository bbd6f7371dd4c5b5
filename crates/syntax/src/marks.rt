// A field that may be absent: a mark, and zero where it is not there. No Option: the writer is given records whose value is another, and refuses them by 25.
#[repr(C)]
#[derive(Clone, Copy)]
pub struct Marked<T> {
    pub there: bool,
    pub value: T,
}
