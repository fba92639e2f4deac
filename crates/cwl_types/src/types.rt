use plain_data::{Items, Text};

/// A type by its name (CWL v1.2, `CWLType`).
#[derive(Clone, Copy, Drop)]
pub enum PlainType {
    /// `null`.
    Null,
    /// `boolean`.
    Boolean,
    /// `int`: a whole number of 32 bits.
    Int,
    /// `long`: a whole number of 64 bits.
    Long,
    /// `string`: Unicode text.
    Text,
    /// `File`.
    File,
    /// `Directory`.
    Directory,
    /// `Any`: any value but null.
    Any,
}

/// One of the types that a value may have. A whole type is a list of these: a value has to fit one.
#[cycle(types)]
#[derive(Drop)]
pub enum MemberType {
    Plain(PlainType),
    /// A list whose items fit the type.
    Array(ArrayType),
    /// One of these texts.
    Enum(Items<Text>),
}

/// A list type (CWL v1.2, `CommandInputArraySchema`).
#[cycle(types)]
#[derive(Drop)]
pub struct ArrayType {
    /// The type of the items: its members.
    pub items: Items<MemberType>,
    /// How each item becomes words of the command line; none where the type says nothing.
    pub binding: Option<ItemBinding>,
}

/// How the items of a list become words (CWL v1.2, `CommandLineBinding`).
#[derive(Drop)]
pub struct ItemBinding {
    /// Stands before each item.
    pub prefix: Option<Text>,
    /// Whether the prefix is a word of its own. True where the field is absent.
    pub separate: bool,
}
