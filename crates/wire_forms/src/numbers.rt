//! Forms and types by their numbers. A form's number is its index in `FORMS`, a type's the place of its first form among those of all types.

// Updates.
pub const UPDATE_NEW_MESSAGE: u32 = 0;

pub const UPDATE_EDIT_MESSAGE: u32 = 1;

pub const UPDATE_DELETE_MESSAGES: u32 = 2;

pub const UPDATE_NEW_ENCRYPTED_MESSAGE: u32 = 3;

pub const UPDATE_NEW_CHANNEL_MESSAGE: u32 = 4;

pub const UPDATE_EDIT_CHANNEL_MESSAGE: u32 = 5;

pub const UPDATE_DELETE_CHANNEL_MESSAGES: u32 = 6;

pub const UPDATE_CHANNEL_TOO_LONG: u32 = 7;

pub const UPDATE_SETTING: u32 = 8;

pub const UPDATE_READ_HISTORY: u32 = 9;

pub const UPDATE_READ_CHANNEL_HISTORY: u32 = 10;

// What a push carries.
pub const UPDATES_TOO_LONG: u32 = 11;

pub const UPDATES: u32 = 12;

pub const UPDATES_COMBINED: u32 = 13;

// States and differences.
pub const STATE: u32 = 14;

pub const DIFFERENCE_EMPTY: u32 = 15;

pub const DIFFERENCE: u32 = 16;

pub const DIFFERENCE_SLICE: u32 = 17;

pub const CHANNEL_DIFFERENCE_EMPTY: u32 = 18;

pub const CHANNEL_DIFFERENCE: u32 = 19;

pub const CHANNEL_DIFFERENCE_TOO_LONG: u32 = 20;

// Frames of a server.
pub const PUSH: u32 = 21;

pub const STATE_REPLY: u32 = 22;

pub const DIFFERENCE_REPLY: u32 = 23;

pub const CHANNEL_REPLY: u32 = 24;

pub const RECEIPT_REPLY: u32 = 25;

pub const ERROR_REPLY: u32 = 26;

// Receipts.
pub const RECEIPT: u32 = 27;

// Posts.
pub const POST_MESSAGE: u32 = 28;

pub const POST_EDIT: u32 = 29;

pub const POST_DELETE: u32 = 30;

pub const POST_SECRET: u32 = 31;

pub const POST_CHANNEL_MESSAGE: u32 = 32;

pub const POST_CHANNEL_EDIT: u32 = 33;

pub const POST_CHANNEL_DELETE: u32 = 34;

pub const POST_SETTING: u32 = 35;

pub const POST_READ: u32 = 36;

pub const POST_CHANNEL_READ: u32 = 37;

// Steps of a replay.
pub const STEP_POST: u32 = 38;

pub const STEP_DATE: u32 = 39;

pub const STEP_SERVE: u32 = 40;

pub const STEP_HEAR: u32 = 41;

pub const STEP_TICK: u32 = 42;

pub const STEP_WAKE: u32 = 43;

pub const STEP_WATCH: u32 = 44;

pub const STEP_RESTART: u32 = 45;

pub const STEP_TOO_LONG: u32 = 46;

pub const STEP_CHANNEL_TOO_LONG: u32 = 47;

// What a client saves.
pub const EVENT_NEW: u32 = 48;

pub const EVENT_EDIT: u32 = 49;

pub const EVENT_DELETE: u32 = 50;

pub const EVENT_READ: u32 = 51;

pub const LANE: u32 = 52;

pub const SETTING: u32 = 53;

pub const CHANNEL: u32 = 54;

pub const CLIENT: u32 = 55;

// Functions.
pub const GET_STATE: u32 = 56;

pub const GET_DIFFERENCE: u32 = 57;

pub const GET_CHANNEL_DIFFERENCE: u32 = 58;

pub const INVOKE: u32 = 59;

pub const POST: u32 = 60;

/// No form has this number.
pub const NO_FORM: u32 = u32::MAX;

// Types.
pub const UPDATE_TYPE: u32 = 0;

pub const UPDATES_TYPE: u32 = 1;

pub const STATE_TYPE: u32 = 2;

pub const DIFFERENCE_TYPE: u32 = 3;

pub const CHANNEL_DIFFERENCE_TYPE: u32 = 4;

pub const FRAME_TYPE: u32 = 5;

pub const RECEIPT_TYPE: u32 = 6;

pub const POST_TYPE: u32 = 7;

pub const STEP_TYPE: u32 = 8;

pub const EVENT_TYPE: u32 = 9;

pub const LANE_TYPE: u32 = 10;

pub const SETTING_TYPE: u32 = 11;

pub const CHANNEL_TYPE: u32 = 12;

pub const CLIENT_TYPE: u32 = 13;
