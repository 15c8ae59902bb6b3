//! Parts of a row, and numbers in it.

// The part of a text at this place, between marks, or nothing.
pub fn part<'t>(text: &'t str, mark: &str, place: usize) -> &'t str {
    text.split(mark).nth(place).unwrap_or("")
}

// What stands behind the first mark, or nothing.
pub fn rest<'t>(text: &'t str, mark: &str) -> &'t str {
    text.splitn(2, mark).nth(1).unwrap_or("")
}

// What a row gives at this place: the parts before the first arrow, between bars.
pub fn given(row: &str, place: usize) -> &str {
    part(part(row, " => ", 0), " | ", place)
}

// The number that the word is, or 0.
pub fn number(word: &str) -> u32 {
    word.parse::<u32>().unwrap_or(0)
}
