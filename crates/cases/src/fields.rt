// The fields of a part of a line.
use std::str::FromStr;

// Three fields with a blank between each two.
pub(crate) fn three(text: &str) -> Option<(&str, &str, &str)> {
    let (first, rest) = text.split_once(' ')?;
    let (second, third) = rest.split_once(' ')?;
    Some((first, second, third))
}

// A number of one or more decimal digits.
pub(crate) fn number<T: FromStr>(text: &str) -> Option<T>
where
    T::Err: Drop,
{
    if !text.bytes().all(|character| character.is_ascii_digit()) {
        return None;
    }
    text.parse::<T>().ok()
}
