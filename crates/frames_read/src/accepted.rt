// A D line that is accepted.
ghost use Rattle.std.specs.Prelude.{◌≡◌, ◌+◌, ◌*◌, length};

use crate::digits::Digits;
use frames_spec::DataFields;

/// A D line that is accepted: its fields, and its digits, of which its samples are read.
#[derive(Clone, Copy)]
pub struct Accepted<'a> {
    pub fields: DataFields,
    pub digits: Digits<'a>,
    pub ghost long: { length digits.text.now ≡ 12 + fields.count * 4 },
}
