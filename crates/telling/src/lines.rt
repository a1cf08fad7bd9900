// The lines of a sheet's text.

/// The line with this number, counted from 1, without its line feed; empty where there is none.
pub(crate) fn line_of(text: &[u8], number: u32) -> &[u8] {
    let above = (number as usize).saturating_sub(1);
    text.split(|b| *b == b'\n').nth(above).unwrap_or(&[])
}
