//! The forms of lines, and what is wanted at a place of one (docs/FORMATS.md, 'The lines of a scenario', 'Statements' and
//! 'COMMAND').

use pr_lines::{Keyword, Wanted};

/// The form of the lines that begin so, for people.
pub fn form_of(keyword: Keyword) -> &'static [u8] {
    match keyword {
        Keyword::Fence => b"fence 1, fence 2 or fence 3",
        Keyword::Keys => b"keys KEY ..",
        Keyword::Host => b"host NAME",
        Keyword::Guest => b"guest NAME",
        Keyword::Start => b"start NAME ALT .., where each ALT is free or a KEY",
        Keyword::Pending => b"pending NAME CODE ..",
        Keyword::Busy => b"busy NAME N",
        Keyword::Full => b"full NAME N",
        Keyword::Reservation =>
            b"reservation ALT .., where each ALT is none, T:NAME, or T for the types 7 and 8",
        Keyword::Generation => b"generation H",
        Keyword::Resets => b"resets N",
        Keyword::Alone => b"alone NAME ..",
        Keyword::Order => b"order conflict",
        Keyword::Role => b"role NAME CLAUSE, or role NAME CLAUSE if COND",
        Keyword::Script => b"script NAME budget N",
        Keyword::Plan => b"plan NAME",
        Keyword::End => b"end",
        Keyword::Send => b"send COMMAND",
        Keyword::On => b"on REPLY",
        Keyword::Done => b"done",
        Keyword::Repeat => b"repeat N",
        Keyword::Break => b"break",
        Keyword::Stop => b"stop WORD",
    }
}

/// What is wanted there, in a sentence of its own.
pub fn wanted_words(wanted: Wanted) -> &'static [u8] {
    match wanted {
        Wanted::Version => b"The version of the language is 1, 2 or 3.",
        Wanted::Name =>
            b"A name or a word is a lower case letter, and up to 15 lower case letters, digits and hyphens.",
        Wanted::Key => b"A key is 1 to 16 hexadecimal digits, also behind 0x, and not zero.",
        Wanted::KeyOrZero =>
            b"A key is 1 to 16 hexadecimal digits, also behind 0x; zero may stand here too.",
        Wanted::Alternative =>
            b"What may be registered is free or a key, which is 1 to 16 hexadecimal digits and not zero.",
        Wanted::Attention => b"What may be pending is one of 29/00, 2a/03, 2a/04 and 2a/05.",
        Wanted::Count => b"A number is written with at most 10 decimal digits.",
        Wanted::Generation => b"A generation is 1 to 8 hexadecimal digits.",
        Wanted::Reservation =>
            b"A reservation is none, T:NAME for the types 1, 3, 5 and 6, or T for the types 7 and 8.",
        Wanted::Budget => b"The word budget stands here.",
        Wanted::Order => b"The word conflict stands here.",
        Wanted::Action =>
            b"A clause is register KEY, unregister, reserve T, release, clear, preempt KEY T, read or write.",
        Wanted::Kind => b"A type is 1, 3, 5, 6, 7 or 8.",
        Wanted::If =>
            b"Behind what is permitted stands nothing, or if and a condition; each clause has its own line.",
        Wanted::Condition => b"A condition is registered, holder or reserved.",
        Wanted::Arm => b"A reply is good, conflict, attention, busy, full or sense K/AA/QQ.",
        Wanted::Good =>
            b"Behind good stands nothing; or has KEY, under READ KEYS; or held KEY or unheld, under READ\nRESERVATION.",
        Wanted::Sense => b"A sense is K/AA/QQ in hexadecimal digits, as 6/29/00.",
        Wanted::Command =>
            b"A command is test-unit-ready, request-sense, read LBA COUNT, write LBA COUNT, or begins with --in\nor --out.",
        Wanted::Option =>
            b"An option is --in, --out, a service action, --param-rk=KEY, --param-sark=KEY or --prout-type=T,\nwhere T is 1, 3, 5, 6, 7 or 8.",
        Wanted::Unsaid => b"The command has such an option already.",
        Wanted::Address => b"The address of a block is a decimal number of at most 4294967295.",
        Wanted::Blocks => b"The count of blocks is a decimal number of at most 65535.",
        Wanted::Direction => b"The direction is missing: --in reads, and --out changes.",
        Wanted::ServiceAction =>
            b"The service action is missing: with --in it is --read-keys, --read-reservation or\n--report-capabilities, with --out --register, --register-ignore, --reserve, --release, --clear,\n--preempt or --preempt-abort.",
        Wanted::OtherDirection =>
            b"--read-keys, --read-reservation and --report-capabilities go with --in, all others with --out.",
        Wanted::NoParameter => b"A command of --in has neither a key nor a type.",
        Wanted::Type => b"The type is missing: --prout-type=T, where T is 1, 3, 5, 6, 7 or 8.",
        Wanted::End => b"The line is at its end before this word.",
    }
}

/// What is missing where no word is left, in a few words; nothing where what is wanted says it.
pub fn missing_words(wanted: Wanted) -> &'static [u8] {
    match wanted {
        Wanted::Version => b"The version is missing.\n",
        Wanted::Name => b"A name is missing.\n",
        Wanted::Key | Wanted::KeyOrZero => b"A key is missing.\n",
        Wanted::Alternative | Wanted::Attention | Wanted::Reservation => b"A word is missing.\n",
        Wanted::Count => b"A number is missing.\n",
        Wanted::Generation => b"The generation is missing.\n",
        Wanted::Action => b"What is permitted is missing.\n",
        Wanted::Kind => b"The type is missing.\n",
        Wanted::Condition => b"The condition is missing.\n",
        Wanted::Arm => b"The reply is missing.\n",
        Wanted::Sense => b"The sense is missing.\n",
        Wanted::Command => b"The command is missing.\n",
        Wanted::Address => b"The address and the count are missing.\n",
        Wanted::Blocks => b"The count is missing.\n",
        _ => b"",
    }
}
