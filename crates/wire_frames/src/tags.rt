// The tag of each frame.

pub const INIT: u8 = 1;

pub const ROUND: u8 = 2;

// ---- the host's replies

pub const ELEMENTS: u8 = 16;

pub const INFO: u8 = 17;

pub const TEXTS: u8 = 18;

pub const ANNOTATIONS: u8 = 19;

pub const VALUES: u8 = 20;

pub const MIRRORS: u8 = 21;

pub const TRUTH: u8 = 22;

pub const CREATED: u8 = 23;

pub const NOTED: u8 = 24;

pub const REFUSED: u8 = 25;

// ---- a child's frames

pub const HELLO: u8 = 64;

pub const DONE: u8 = 65;

pub const SOURCE: u8 = 66;

pub const RESOURCE: u8 = 67;

pub const CLASS: u8 = 68;

pub const MESSAGE: u8 = 69;

// ---- the questions have the tags of their rows (`QuestionRow`), from this one on

pub const FIRST_QUESTION: u8 = 80;
