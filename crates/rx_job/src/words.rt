//! Words of the command line.
ghost use Rattle.std.specs.Prelude.{◌≡◌, IsTrue, nat_eq};
ghost use Rattle.rx_terms.specs.Common.{pointwise, list_all, is_ascii_digit, chars, is_ascii};
ghost use Rattle.rx_job.specs.Words.{are_names, count_of, is_file_if_any, is_file_name, is_page_name, is_positive_number};
ghost use Rattle.rx_job.specs.Jobs.{text_in};

use rx_terms::Text;

/// Whether the text is this word of ASCII.
pub(crate) fn is_word(text: &Text, word: &str) -> bool
    requires { IsTrue (list_all is_ascii word.now) }
    ensures { result ≡ pointwise nat_eq text.now word.now }
{
    text.as_str() == word
}

/// Whether a page may have the name.
pub(crate) fn is_page_name(page: &str) -> bool
    ensures { result ≡ is_page_name (chars page.now) }
{
    match page.chars().next() {
        None => false,
        Some(first) => first != '-',
    }
}

/// Whether the page has a name, and the context file too, where there is one.
pub(crate) fn are_names(file: Option<&Text>, page: &Text) -> bool
    ensures { result ≡ are_names (text_in file.entry) page.now }
{
    is_file_if_any(file) && is_page_name(page.as_str())
}

/// Whether the context file has a name, where there is one.
pub(crate) fn is_file_if_any(file: Option<&Text>) -> bool
    ensures { result ≡ is_file_if_any (text_in file.entry) }
{
    match file {
        None => true,
        Some(file) => is_file_name(file.as_str()),
    }
}

fn is_file_name(name: &str) -> bool
    ensures { result ≡ is_file_name (chars name.now) }
{
    match name.chars().next() {
        None => false,
        Some(_first) => true,
    }
}

/// The most items that a sample page has.
const MOST_ITEMS: u32 = 100_000;

/// The number of items that the word is, from 1 to 100,000 in decimal digits without a leading zero.
pub(crate) fn count_of(word: &Text) -> Option<u32>
    ensures { result ≡ count_of word.now }
{
    let digits = word.as_str();
    if !is_number(digits) {
        return None;
    }
    match digits.parse::<u32>() {
        Ok(count) if count <= MOST_ITEMS => Some(count),
        _ => None,
    }
}

fn is_number(word: &str) -> bool
    ensures { result ≡ is_positive_number (chars word.now) }
{
    match word.chars().next() {
        None => false,
        Some('0') => false,
        Some(_first) => are_digits(word),
    }
}

fn are_digits(word: &str) -> bool
    ensures { result ≡ list_all is_ascii_digit (chars word.now) }
{
    word.chars().all(|c| c.is_ascii_digit())
}
