// Which tables a call is for, and what the calls give back by value where it is more than a number. The rules themselves stand in specs/.
#![tactic(auto)]

ghost use Rattle.std.specs.Prelude.{Bool, true, false};

// Which tables they are. It is no word of theirs: who lends them says it, by the calls that are used, and the compiler makes those of each profile.
pub trait Profile {
    ghost SHEET: { Bool };

    const SHEET: bool;
}

// The ordinary tables.
pub struct Ordinary;

impl Profile for Ordinary {
    ghost SHEET = { false };

    const SHEET: bool = false;
}

// A writers' sheet.
pub struct Sheet;

impl Profile for Sheet {
    ghost SHEET = { true };

    const SHEET: bool = true;
}

// What a worker claims: the frames from start up to but not including end, to read (kind 1) or to write (kind 2). Any numbers; reserve refuses others.
#[derive(Clone, Copy)]
pub struct Claim {
    pub start: u32,
    pub end: u32,
    pub kind: u32,
}

// A row of the board: a holding seat, its claim's first frame, the frame after its last, and its kind.
#[derive(Clone, Copy)]
pub struct Row {
    pub seat: u32,
    pub first: u32,
    pub end: u32,
    pub kind: u32,
}

// A line of a script: its code (v 1, s 2, r 3, e 4) and four numbers, as 01 gives a row and as the rules of Script read it; so they cross to C.
#[derive(Clone, Copy)]
pub struct Line {
    pub code: u32,
    pub seat: u32,
    pub start: u32,
    pub end: u32,
    pub kind: u32,
}

// A script as read: N, S, K, the title's frame count and, as 01 asks, 1,000 rows by value: nothing here allocates. What a script does not fill is 0.
#[derive(Clone, Copy)]
pub struct Script {
    pub n: u32,
    pub s: u32,
    pub k: u32,
    pub title: u32,
    pub rows: [Line; 1000],
}

// The line of a script that is not well formed: the first wrong one from 1, 0 where the script is too long.
#[derive(Clone, Copy)]
pub struct Wrong {
    pub line: u32,
}

// While a script is read: a number and the place after it.
#[derive(Clone, Copy)]
pub struct Found {
    pub value: u32,
    pub next: usize,
}

// A line and the place after it.
#[derive(Clone, Copy)]
pub struct Body {
    pub line: Line,
    pub next: usize,
}

// The numbers of line 1 and the place after it.
#[derive(Clone, Copy)]
pub struct Contents {
    pub n: u32,
    pub s: u32,
    pub k: u32,
    pub title: u32,
    pub next: usize,
}

// What two claims share: the first shared frame, and the frame after the last.
#[derive(Clone, Copy)]
pub struct SharedRun {
    pub first: u32,
    pub end: u32,
}

// Why a call is refused: 01's refusals and what 02 adds to them, each with its number. Which of several comes first is for each call to say.
#[derive(Clone, Copy, Debug, PartialEq, Eq)]
pub enum Refused {
    Damaged = 1,
    NoSuchSeat = 2,
    NoFrames = 3,
    UnknownKind = 4,
    HasClaim = 5,
    HasNoClaim = 6,
    NotHolding = 7,
    NoNodeFree = 8,
    NoRoom = 9,
    NotWellFormed = 10,
    BeyondTitle = 11,
    NoSuchRun = 12,
    UnknownType = 13,
    NotReserved = 14,
}

// What reserve, enter, step and release answer where they are not refused. A wait has the node waited at, and the first frame and the end of the shared
// run.
#[derive(Clone, Copy)]
pub enum Reply {
    Node(u32),
    Out,
    On,
    Wait(u32, u32, u32),
    Held,
    Back,
}

// What the board answers where it is not refused: the row count and the covered frames.
#[derive(Clone, Copy)]
pub struct Filled {
    pub rows: u32,
    pub covered: u64,
}

// What run answers: the steps accepted, and the refusal met, if there was one.
#[derive(Clone, Copy)]
pub struct Ran {
    pub steps: u32,
    pub refusal: Option<Refused>,
}

// A record of a list that is refused, and so the list: why, and the record's place from 0.
#[derive(Clone, Copy)]
pub struct BadRecord {
    pub why: Refused,
    pub place: usize,
}

// What import and export answer to C: the refusal or 0, and the place from 0 of the record that is refused.
#[repr(C)]
#[derive(Clone, Copy)]
pub struct Moved {
    pub refusal: u32,
    pub place: usize,
}
