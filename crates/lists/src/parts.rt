// The front part of a list, as long as a number says, or the whole list where that is longer.

// The front part of a lent list.
pub fn front<T>(s: &mut [T], n: u32) -> &mut [T] {
    let end = s.len().min(n as usize);
    &mut s[..end]
}

// The front part of a list, and what stands behind it.
pub fn split_front<T>(s: &[T], n: u32) -> (&[T], &[T]) {
    s.split_at(s.len().min(n as usize))
}
