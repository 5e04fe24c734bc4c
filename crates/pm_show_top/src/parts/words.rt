//! The words of a trace, and their numbers.

use pm_names::{cb_words, events, helpers, req_words, status_words};

/// Helpers with their numbers.
static NUMBERS: [(&[u8], Option<usize>); 12] = list! {
    (b"get_sync", Some(0)); (b"resume", Some(5)); (b"put", Some(7)); (b"idle", Some(13));
    (b"suspend", Some(15)); (b"enable", Some(19)); (b"set_active", Some(22));
    (b"mark_last_busy", Some(26)); (b"delay", Some(30)); (b"ignore_children", Some(31));
    (b"link_add", Some(32)); (b"link_del", Some(33));
};

/// No helpers.
pub static OTHERS: [(&[u8], Option<usize>); 7] = list! {
    (b"", None); (b"ge", None); (b"gets", None); (b"get\0", None); (b"Get", None); (b" get", None);
    (b"pm_call", None);
};

/// Words have these numbers as helpers, or none.
pub fn are_helpers(rows: &[(&[u8], Option<usize>)]) -> bool {
    let table = helpers();
    let mut is_shown = true;
    for (word, number) in rows {
        is_shown &= table.number_of(*word) == *number;
    }
    is_shown
}

/// Words have their numbers.
pub fn have_numbers() -> bool {
    are_helpers(&NUMBERS)
        && events().number_of(b"rpm_return_int") == Some(8)
        && status_words().number_of(b"deferred") == Some(3)
        && req_words().number_of(b"none") == Some(0)
        && cb_words().number_of(b"resume") == Some(2)
}

/// Numbers have their words.
pub fn have_words() -> bool {
    helpers().name_of(29) == b"set_autosuspend_delay".as_slice()
        && events().name_of(14) == b"pm_timer".as_slice()
}
