//! The types of single values.

ghost use Rattle.std.specs.Prelude.{◌≡◌, pos};

/// The type of a single value: IEC 61131-3 edition 3, 6.4.2 (elementary data types), the part that this profile has.
#[derive(Clone, Copy, PartialEq, Eq)]
pub enum ElemType {
    /// 0 and 1.
    Bool,
    /// Signed, 8 bits.
    Sint,
    /// Signed, 16 bits.
    Int,
    /// Signed, 32 bits.
    Dint,
    /// Signed, 64 bits.
    Lint,
    /// Unsigned, 8 bits.
    Usint,
    /// Unsigned, 16 bits.
    Uint,
    /// Unsigned, 32 bits.
    Udint,
    /// Milliseconds, signed, 64 bits.
    Time,
}

/// All types.
pub const TYPES: [ElemType; 9] = [
    ElemType::Bool,
    ElemType::Sint,
    ElemType::Int,
    ElemType::Dint,
    ElemType::Lint,
    ElemType::Usint,
    ElemType::Uint,
    ElemType::Udint,
    ElemType::Time,
];

impl ElemType {
    ghost use Rattle.fb_words.specs.Writing.{type_name};
    ghost use Rattle.fb_words.specs.Numbers.{lowest, highest, in_type, size, wrapped};

    /// The type's name, in upper case.
    pub fn name(self) -> &'static str
        ensures { result.now ≡ type_name self }
    {
        match self {
            ElemType::Bool => "BOOL",
            ElemType::Sint => "SINT",
            ElemType::Int => "INT",
            ElemType::Dint => "DINT",
            ElemType::Lint => "LINT",
            ElemType::Usint => "USINT",
            ElemType::Uint => "UINT",
            ElemType::Udint => "UDINT",
            ElemType::Time => "TIME",
        }
    }
    /// The least number of the type.
    pub fn lowest(self) -> i64
        ensures { result ≡ lowest self }
    {
        match self {
            ElemType::Bool | ElemType::Usint | ElemType::Uint | ElemType::Udint => 0,
            ElemType::Sint => -128,
            ElemType::Int => -32_768,
            ElemType::Dint => -2_147_483_648,
            ElemType::Lint | ElemType::Time => -9_223_372_036_854_775_808,
        }
    }

    /// The greatest number of the type.
    pub fn highest(self) -> i64
        ensures { result ≡ highest self }
    {
        match self {
            ElemType::Bool => 1,
            ElemType::Sint => 127,
            ElemType::Int => 32_767,
            ElemType::Dint => 2_147_483_647,
            ElemType::Lint | ElemType::Time => 9_223_372_036_854_775_807,
            ElemType::Usint => 255,
            ElemType::Uint => 65_535,
            ElemType::Udint => 4_294_967_295,
        }
    }

    /// Whether a number is one of the type.
    pub fn fits(self, number: i128) -> bool
        ensures { result ≡ in_type self number }
    {
        i128::from(self.lowest()) <= number && number <= i128::from(self.highest())
    }

    // How many numbers the type has.
    fn size(self) -> i128
        ensures { result ≡ pos (size self) }
    {
        match self {
            ElemType::Bool => 2,
            ElemType::Sint | ElemType::Usint => 0x100,
            ElemType::Int | ElemType::Uint => 0x1_0000,
            ElemType::Dint | ElemType::Udint => 0x1_0000_0000,
            ElemType::Lint | ElemType::Time => 0x1_0000_0000_0000_0000,
        }
    }

    /// The number of the type that differs from a number by a multiple of how many numbers the type has.
    pub fn wrap(self, number: i128) -> i64
        ensures { result ≡ wrapped self number }
    {
        let size = self.size();
        let rest = number.rem_euclid(size);
        if i128::from(self.highest()) < rest {
            (rest - size) as i64
        } else {
            rest as i64
        }
    }
}
