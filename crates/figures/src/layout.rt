// Where the figures' words stand; specs/Encoding.antt says what each holds.
use model::numbers::GROUPS;

pub const AT_HELD: usize = GROUPS;

pub const AT_GREATEST: usize = AT_HELD + GROUPS;

pub const AT_CEILING: usize = AT_GREATEST + GROUPS;

pub const AT_REST: usize = AT_CEILING + GROUPS;
