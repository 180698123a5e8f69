//! What people write by habit, of `sg_persist`, the shell and other languages, and what is meant by it here.

use pr_lines::{Keyword, Wanted, keyword_of};

/// What is meant by a word.
#[derive(Clone, Copy)]
pub enum Meant {
    /// This stands in its place.
    Word(&'static [u8]),

    /// This stands in its place, with the word behind it as its value.
    Option(&'static [u8]),

    /// Nothing: it has no part here.
    LeftOut,

    /// A sentence says it.
    Said(&'static [u8]),

    /// The line ends in front of it, as a sentence says.
    Ended(&'static [u8]),

    /// The line begins behind it, as a sentence says.
    Dropped(&'static [u8]),

    /// A sentence says it, and lines stand in place of this one, with its key in place of `{}`.
    Lines(&'static [u8], &'static [u8]),
}

use Meant::{Dropped, Ended, LeftOut, Lines, Option as Valued, Said, Word};

/// Words, or the fronts of some that end with `=` or `/`, and what is meant by each of them.
type Slip = (&'static [&'static [u8]], Meant);

/// What is said of a variable.
pub const NO_VARIABLES: &[u8] = b"There are no variables: write keys and names as they are.";

const NO_VARIABLE: Meant = Said(NO_VARIABLES);

const LABEL: Meant = Said(
    b"There are no labels: statements run one behind another, and repeat N and break make loops.",
);

const PROGRAM: Meant = Said(
    b"Leave out the name of the program and the device; the options stand behind send\n(docs/FROM_SG_PERSIST.md).",
);

const LINES: &[Slip] = &[
    (
        &[b"node", b"nodes"],
        Said(b"A node is host NAME where it has a script here, and guest NAME where it has none."),
    ),
    (
        &[
            b"if", b"elif", b"else", b"then", b"case", b"[", b"[[", b"test",
        ],
        Said(
            b"There is no if: what is to be done after a reply stands below the line on REPLY of its send.",
        ),
    ),
    (
        &[b"while", b"until", b"for", b"loop", b"retry"],
        Said(b"A loop is repeat N, closed by done; break leaves it."),
    ),
    (&[b"fi", b"esac", b"endif"], Word(b"done")),
    (
        &[b"sleep", b"wait", b"delay", b"timeout"],
        Said(b"Time has no part here: leave the line out. To ask again, use repeat N."),
    ),
    (
        &[b"continue", b"next"],
        Said(
            b"There is no continue: a turn ends at the done of its repeat. What it is not to do after this\nreply stands below the arms of the others.",
        ),
    ),
    (
        &[b"include", b"import", b"source", b"."],
        Said(b"A scenario is one text: write here what the other text has."),
    ),
    (
        &[b"device", b"disk", b"lun", b"unit"],
        Said(b"There is one disk, which has no name here: leave the line out."),
    ),
    (
        &[b"{", b"}", b"};"],
        Said(b"There are no braces: done closes a send or a repeat, and end a script or a plan."),
    ),
    (
        &[b"<<<<<<<", b"|||||||", b"=======", b">>>>>>>"],
        Said(
            b"git leaves such lines where two changes meet: keep one of the two, and delete these lines.",
        ),
    ),
    (
        &[b"-", b"*", b"+"],
        Dropped(b"No sign stands in front of a line"),
    ),
    (&[b"end-for"], TEMPLATE),
    (
        &[b"goto", b"jump", b"call", b"function"],
        Said(
            b"There are no jumps: statements run one behind another, and repeat N and break make loops.",
        ),
    ),
    (
        &[b"echo", b"printf", b"log", b"logger"],
        Said(b"A script prints nothing: leave the line out. The word of a stop says how it ended."),
    ),
    (&[b"set", b"export", b"local"], NO_VARIABLE),
    (
        &[b"exit", b"return"],
        Said(b"A script ends by stop WORD, with a word of your own, or behind its last statement."),
    ),
    (&[b"sg_persist", b"mpathpersist"], PROGRAM),
    (
        &[b"//", b";", b"--", b"/*", b"rem"],
        Said(b"A comment begins with #."),
    ),
];

const TEMPLATE: Meant = Said(
    b"This is a line of a template: the script alike writes the scenario from it.",
);

const NOT: Meant = Lines(
    b"There is no not. Write on good has KEY, and below it on good, which takes all other GOOD replies.",
    b"  on good has {}\n  on good\n",
);

const EMPTY: Meant = Said(
    b"Below READ KEYS each key has its arm, on good has KEY, and on good behind them takes the empty list.\nBelow READ RESERVATION it is on good unheld.",
);

const ARMS: &[Slip] = &[
    (
        &[
            b"*", b"any", b"all", b"default", b"else", b"error", b"fail", b"failure", b"other",
        ],
        Said(
            b"There is no arm for every reply: write one for each, as on good, on conflict and on attention.",
        ),
    ),
    (&[b"not", b"!", b"lacks", b"without"], NOT),
    (&[b"empty"], EMPTY),
    (&[b"ok", b"success", b"0", b"0x00"], Word(b"good")),
    (&[b"unit-attention", b"ua", b"6"], Word(b"attention")),
    (
        &[b"reservation-conflict", b"24", b"0x18", b"18h"],
        Word(b"conflict"),
    ),
    (&[b"0x08", b"08h"], Word(b"busy")),
    (
        &[b"task-set-full", b"queue-full", b"0x28", b"28h"],
        Word(b"full"),
    ),
    (
        &[b"timeout", b"timed-out", b"no-reply", b"nothing", b"none"],
        Said(b"The disk answers each command here: no arm is for a reply that does not come."),
    ),
    (
        &[b"check-condition", b"check"],
        Said(
            b"A CHECK CONDITION is told by its sense: on attention takes each unit attention, and\non sense K/AA/QQ this sense alone.",
        ),
    ),
    (&[b"has"], Word(b"good has")),
    (&[b"held"], Word(b"good held")),
    (&[b"unheld"], Word(b"good unheld")),
];

const GOODS: &[Slip] = &[
    (&[b"not", b"!", b"lacks", b"without"], NOT),
    (&[b"empty"], EMPTY),
    (
        &[b"and", b"&&"],
        Said(b"An arm asks one thing: a second one has its own arm, below it."),
    ),
    (&[b"key"], Word(b"has")),
    (&[b"free"], Word(b"unheld")),
];

const CLAUSE_BY_CLAUSE: Meant = Said(b"A role has a line for each command that it permits.");

const ACTIONS: &[Slip] = &[
    (
        &[
            b"--register",
            b"--register-ignore",
            b"register-ignore",
            b"registers",
        ],
        Word(b"register"),
    ),
    (&[b"--reserve"], Word(b"reserve")),
    (&[b"--release"], Word(b"release")),
    (&[b"--clear"], Word(b"clear")),
    (
        &[b"--preempt", b"--preempt-abort", b"preempt-abort"],
        Word(b"preempt"),
    ),
    (
        &[
            b"test-unit-ready",
            b"request-sense",
            b"read-keys",
            b"read-reservation",
            b"--in",
        ],
        Said(b"A command that only looks needs no clause: everybody may send it at any time."),
    ),
    (&[b"*", b"all", b"any", b"everything"], CLAUSE_BY_CLAUSE),
    (&[b"writes"], Word(b"write")),
];

const IFS: &[Slip] = &[
    (&[b"when", b"while", b"where"], Word(b"if")),
    (
        &[b"unless"],
        Ended(b"There is no unless: without a condition the clause permits it at any time"),
    ),
    (&[b"and"], CLAUSE_BY_CLAUSE),
    (
        &[b"abort"],
        Said(b"A clause preempt KEY T permits both PREEMPT and PREEMPT AND ABORT."),
    ),
];

const CONDITIONS: &[Slip] = &[
    (&[b"registrant"], Word(b"registered")),
    (&[b"held", b"holding", b"holds"], Word(b"holder")),
    (
        &[b"not"],
        Said(b"There is no not: a clause without a condition permits it at any time."),
    ),
];

const OPTIONS: &[Slip] = &[
    (&[b"-o"], Word(b"--out")),
    (&[b"-i"], Word(b"--in")),
    (&[b"-k", b"--read-key", b"--read"], Word(b"--read-keys")),
    (&[b"-r"], Word(b"--read-reservation")),
    (&[b"-c"], Word(b"--report-capabilities")),
    (&[b"-G"], Word(b"--register")),
    (&[b"-I"], Word(b"--register-ignore")),
    (&[b"-R"], Word(b"--reserve")),
    (&[b"-L"], Word(b"--release")),
    (&[b"-C"], Word(b"--clear")),
    (&[b"-P"], Word(b"--preempt")),
    (&[b"-A", b"--abort"], Word(b"--preempt-abort")),
    (&[b"-K", b"--param-rk"], Valued(b"--param-rk=")),
    (&[b"-S", b"--param-sark"], Valued(b"--param-sark=")),
    (&[b"-T", b"--prout-type"], Valued(b"--prout-type=")),
    (&[b"--type="], Word(b"--prout-type=")),
    (&[b"--key=", b"--rk="], Word(b"--param-rk=")),
    (&[b"--sark="], Word(b"--param-sark=")),
    (
        &[
            b"-d",
            b"-n",
            b"-v",
            b"-vv",
            b"-H",
            b"--device=",
            b"--hex",
            b"--verbose",
            b"--no-inquiry",
            b"--readonly",
            b"/dev/",
        ],
        LeftOut,
    ),
    (
        &[
            b"--param-aptpl",
            b"--param-alltgpt",
            b"--register-move",
            b"--transport-id=",
            b"--read-full-status",
            b"-Z",
            b"-Y",
            b"-s",
        ],
        Said(
            b"A scenario has no such option: docs/FROM_SG_PERSIST.md says what is left out, and why.",
        ),
    ),
    (SHELL_SIGNS, BEHIND_COMMAND),
];

const SHELL_SIGNS: &[&[u8]] = &[
    b"||",
    b"&&",
    b"|",
    b"&",
    b";",
    b">",
    b">>",
    b"2>",
    b"2>&1",
    b">/dev/null",
    b"2>/dev/null",
];

const BEHIND_COMMAND: Meant = Ended(b"A line has one command, and nothing of a shell behind it");

const COMMANDS: &[Slip] = &[
    (
        &[b"tur", b"test_unit_ready", b"sg_turs"],
        Word(b"test-unit-ready"),
    ),
    (&[b"request_sense"], Word(b"request-sense")),
    (&[b"sg_persist"], PROGRAM),
    (&[b"read-keys"], Word(b"--in --read-keys")),
    (&[b"register"], Word(b"--out --register")),
    (&[b"reserve"], Word(b"--out --reserve")),
    (&[b"release"], Word(b"--out --release")),
];

const TYPES: &[Slip] = &[
    (&[b"we", b"write-exclusive"], Word(b"1")),
    (&[b"ea", b"exclusive-access"], Word(b"3")),
    (&[b"wero"], Word(b"5")),
    (&[b"earo"], Word(b"6")),
    (&[b"wear"], Word(b"7")),
    (&[b"eaar"], Word(b"8")),
    (
        &[b"2"],
        Said(b"Type 2 is obsolete: the types are 1, 3, 5, 6, 7 and 8."),
    ),
    (
        &[b"4"],
        Said(b"Type 4 is obsolete: the types are 1, 3, 5, 6, 7 and 8."),
    ),
    (&[b"if"], Said(b"The type is missing in front of the if.")),
    (
        &[b"0"],
        Said(b"There is no type 0: the types are 1, 3, 5, 6, 7 and 8."),
    ),
];

const NAMES: &[Slip] = &[(
    &[b"*"],
    Said(b"A line is of one host or guest: write one for each of them."),
)];

const KEYS: &[Slip] = &[(
    &[b"*", b"all", b"any", b"each"],
    Said(
        b"Each key is written out: behind keys they stand on one line, and elsewhere each has its own.",
    ),
)];

const ALTERNATIVES: &[Slip] = &[
    (
        &[b"none", b"0", b"unregistered", b"unregister", b"nothing"],
        Word(b"free"),
    ),
    (
        &[b"*", b"all", b"any"],
        Said(b"Each that may be is written out: free, and each key, all on this line."),
    ),
];

const ATTENTIONS: &[Slip] = &[
    (
        &[b"none", b"0", b"free", b"nothing"],
        Said(b"Where nothing is pending the line is left out."),
    ),
    (&[b"*", b"all", b"any"], Word(b"29/00 2a/03 2a/04 2a/05")),
];

const RESERVATIONS: &[Slip] = &[
    (&[b"free", b"0", b"nothing", b"unheld"], Word(b"none")),
    (
        &[b"*", b"all", b"any", b"1:*", b"3:*", b"5:*", b"6:*"],
        Said(b"Each that may be is written out: none, and each T:NAME, all on this line."),
    ),
];

const BEHIND_ARM: &[Slip] = &[(
    &[b"and", b"&&"],
    Said(
        b"An arm asks for one key: to ask for a second, send the same command again below this arm.",
    ),
)];

const BEHIND_CLAUSE: &[Slip] = &[(
    &[b"and", b"&&", b"unless"],
    Ended(b"A clause has one condition; with one of the two alone it permits more"),
)];

/// What is meant by the word at the beginning of a line. A template has `for` with a range, as `1..8`.
pub fn meant_by_line(word: &[u8], is_range: bool) -> Option<Meant> {
    if is_range && word == b"for".as_slice() {
        return Some(TEMPLATE);
    }
    if let Some(meant) = meant_in(LINES, word) {
        return Some(meant);
    }
    if word.contains(&b'=') && !word.starts_with(b"-") || word.starts_with(b"$") {
        return Some(NO_VARIABLE);
    }
    match word.strip_suffix(b":".as_slice()) {
        Some(label) if keyword_of(label).is_none() => Some(LABEL),
        _ => None,
    }
}

/// What is meant by the word behind the end of a line that begins so; a command of a plan begins with no keyword.
pub fn meant_behind(word: &[u8], first: Option<Keyword>) -> Option<Meant> {
    match first {
        Some(Keyword::On) => meant_in(BEHIND_ARM, word),
        Some(Keyword::Role) => meant_in(BEHIND_CLAUSE, word),
        Some(Keyword::End | Keyword::Done | Keyword::Break) => {
            Some(Ended(b"Nothing stands behind end, done and break"))
        }
        Some(Keyword::Send) | None if SHELL_SIGNS.contains(&word) => Some(BEHIND_COMMAND),
        _ => None,
    }
}

/// What is meant by the word where this was wanted.
pub fn meant_by(word: &[u8], wanted: Wanted) -> Option<Meant> {
    if word.starts_with(b"$") {
        return Some(NO_VARIABLE);
    }
    if wanted == Wanted::Command
        && let Some(meant) = meant_in(COMMANDS, word)
    {
        return Some(meant);
    }
    meant_in(slips_at(wanted), word)
}

// What people write where this is wanted.
fn slips_at(wanted: Wanted) -> &'static [Slip] {
    match wanted {
        Wanted::Arm => ARMS,
        Wanted::Good => GOODS,
        Wanted::Action => ACTIONS,
        Wanted::If => IFS,
        Wanted::Condition => CONDITIONS,
        Wanted::Kind => TYPES,
        Wanted::Option | Wanted::Command => OPTIONS,
        Wanted::Name => NAMES,
        Wanted::Key | Wanted::KeyOrZero => KEYS,
        Wanted::Alternative => ALTERNATIVES,
        Wanted::Attention => ATTENTIONS,
        Wanted::Reservation => RESERVATIONS,
        _ => &[],
    }
}

/// The type that is meant by a word.
pub fn type_by(word: &[u8]) -> Option<&'static [u8]> {
    match meant_by(word, Wanted::Kind) {
        Some(Word(kind)) => Some(kind),
        _ => None,
    }
}

fn meant_in(slips: &[Slip], word: &[u8]) -> Option<Meant> {
    let row = slips
        .iter()
        .find(|row| row.0.iter().any(|written| is_meant(written, word)));
    row.map(|row| row.1)
}

// Whether the word is the one that is written so, or goes on behind it where that is a front.
fn is_meant(written: &[u8], word: &[u8]) -> bool {
    let is_front = written.ends_with(b"=") || written.ends_with(b"/") && written.len() > 2;
    written == word || is_front && word.starts_with(written)
}
