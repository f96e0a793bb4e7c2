//! The table of the events.

ghost use Rattle.std.specs.Prelude.{◌≡◌, IfOk, bytes_eq, find, map, option_map};
ghost use Rattle.message_log.specs.Log.{event_words as all_words, forms};
ghost use Rattle.message_log.specs.Seen.{form_of};

use out_of_memory::OutOfMemory;
use std::alloc::Global;

/// The word of an event, and what stands behind it in a line.
#[derive(Clone, Copy)]
pub(crate) struct Form {
    pub word: &'static str,
    pub behind: &'static str,
}

/// Each event, in the order in which its word is compared.
const FORMS: [Form; 12] = [
    Form {
        word: "release",
        behind: "",
    },
    Form {
        word: "timeout",
        behind: " M C E",
    },
    Form {
        word: "get",
        behind: " D V",
    },
    Form {
        word: "put",
        behind: " D V",
    },
    Form {
        word: "enter",
        behind: " M",
    },
    Form {
        word: "leave",
        behind: " M",
    },
    Form {
        word: "wait",
        behind: " M C",
    },
    Form {
        word: "signal",
        behind: " M C Q",
    },
    Form {
        word: "broadcast",
        behind: " M C K",
    },
    Form {
        word: "empty",
        behind: " M C 0",
    },
    Form {
        word: "raise",
        behind: " E",
    },
    Form {
        word: "end",
        behind: "",
    },
];

/// The table.
#[tactic(auto, unfolding(crate::specs::Log::forms))]
fn forms() -> &'static [Form]
    ensures { map form_of result.now ≡ forms }
{
    &FORMS
}

/// The words of these forms.
fn words_of(alloc: Global, forms: &[Form]) -> Result<Vec<&'static [u8]>, OutOfMemory>
    ensures { IfOk result (λ all.
        map (λ word. word.now) all.items ≡ map (λ form. form.word) (map form_of forms.now)) }
{
    let mut all = Vec::new(alloc);
    for form in forms {
        all.push(form.word.as_bytes())?;
    }
    Ok(all)
}

/// The words of all events.
pub(crate) fn event_words(alloc: Global) -> Result<Vec<&'static [u8]>, OutOfMemory>
    ensures { IfOk result (λ all. map (λ word. word.now) all.items ≡ all_words) }
{
    words_of(alloc, forms())
}

/// Whether the word is that of the form.
fn is_word_of(form: &Form, word: &[u8]) -> bool
    ensures { result ≡ bytes_eq form.now.word.now word.now }
{
    form.word.as_bytes() == word
}

/// The first of these forms whose word this is.
fn form_among(forms: &'static [Form], word: &[u8]) -> Option<&'static Form>
    ensures { option_map (λ form. form_of form.now) result ≡
        find (λ form. bytes_eq form.word word.now) (map form_of forms.now) }
{
    for form in forms {
        if is_word_of(form, word) {
            return Some(form);
        }
    }
    None
}

/// The form of the event whose word this is.
pub(crate) fn event_form(word: &[u8]) -> Option<&'static Form>
    ensures { option_map (λ form. form_of form.now) result ≡
        find (λ form. bytes_eq form.word word.now) forms }
{
    form_among(forms(), word)
}
