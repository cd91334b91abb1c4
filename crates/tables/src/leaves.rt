// Tokens of no formula (specs/Leaves.antt): their places and codes, and the error leaf that is due. Codes are numbers, as those of tokens are
// (codes.rt), since one match has both.
ghost use Rattle.std.specs.Prelude.{◌≡◌, ◌+◌, ◌≤◌, length, set};
ghost use Rattle.tables.specs.Leaves.{error_place, leaves_end, kind_at, token_at, coded};

pub const END: u32 = 6133;

pub const RISE: u32 = 6134;

pub const FAILURE: u32 = 6135;

pub const SUCCESS: u32 = 6136;

pub const ERROR: u32 = 6137;

pub const EMPTY_CODE: u32 = 0;

pub const SUCCESS_CODE: u32 = 16;

pub const FAILURE_CODE: u32 = 17;

pub const ERROR_CODE: u32 = 18;

pub const RETURN_CODE: u32 = 19;

pub const RISE_CODE: u32 = 20;

const KIND: usize = ERROR as usize + 1;

const TOKEN: usize = ERROR as usize + 2;

// The kind of the error leaf that is due.
pub fn kind(w: &[u32]) -> u32
    requires { leaves_end ≤ length w.now }
    ensures { result ≡ kind_at w.now }
{
    w[KIND]
}

// Its token.
pub fn token(w: &[u32]) -> u32
    requires { leaves_end ≤ length w.now }
    ensures { result ≡ token_at w.now }
{
    w[TOKEN]
}

pub fn set_error(w: &mut [u32], kind: u32, token: u32)
    requires { leaves_end ≤ length w.old }
    ensures { w.new ≡ set (set w.old (error_place + 1) kind) (error_place + 2) token }
{
    w[KIND] = kind;
    w[TOKEN] = token;
}

// The codes of all but the procedures' ends.
pub fn set_codes(w: &mut [u32])
    requires { leaves_end ≤ length w.old }
    ensures { w.new ≡ coded w.old }
{
    w[END as usize] = EMPTY_CODE;
    w[RISE as usize] = RISE_CODE;
    w[FAILURE as usize] = FAILURE_CODE;
    w[SUCCESS as usize] = SUCCESS_CODE;
    w[ERROR as usize] = ERROR_CODE;
}
