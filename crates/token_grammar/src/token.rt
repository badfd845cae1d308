// Tokens of a text.

/// The kind of a token: comments, pragmas, names, the kinds of literals and addresses, and one kind for each reserved word, each name of a type and each mark.
#[derive(Clone, Copy, Debug, PartialEq, Eq)]
pub enum TokenKind {
    Comment,
    Pragma,
    Name,
    Number,
    /// A number behind the name of its type, as `INT#5`.
    TypedNumber,
    /// A time, as `T#5s`.
    Duration,
    Address,
    // The reserved words and the names of types, in byte order.
    Action,
    And,
    Array,
    At,
    Bool,
    By,
    Byte,
    Case,
    Configuration,
    Constant,
    Continue,
    Dint,
    Do,
    Dword,
    Else,
    Elsif,
    EndAction,
    EndCase,
    EndConfiguration,
    EndFor,
    EndFunction,
    EndFunctionBlock,
    EndIf,
    EndProgram,
    EndRepeat,
    EndResource,
    EndStep,
    EndStruct,
    EndTransition,
    EndType,
    EndVar,
    EndWhile,
    Exit,
    False,
    For,
    From,
    Function,
    FunctionBlock,
    If,
    InitialStep,
    Int,
    Lint,
    Lword,
    Mod,
    NonRetain,
    Not,
    Of,
    On,
    Or,
    Program,
    Repeat,
    Resource,
    Retain,
    Return,
    Sint,
    Step,
    Struct,
    Task,
    Then,
    Time,
    To,
    Transition,
    True,
    Type,
    Udint,
    Uint,
    Ulint,
    Until,
    Usint,
    Var,
    VarExternal,
    VarGlobal,
    VarInput,
    VarInOut,
    VarOutput,
    VarTemp,
    While,
    With,
    Word,
    Xor,
    // The marks.
    /// `:=`
    Becomes,
    /// `=>`
    Arrow,
    /// `<=`
    LessEqual,
    /// `>=`
    GreaterEqual,
    /// `<>`
    NotEqual,
    /// `=`
    Equal,
    /// `<`
    Less,
    /// `>`
    Greater,
    /// `+`
    Plus,
    /// `-`
    Minus,
    /// `*`
    Star,
    /// `**`
    Power,
    /// `/`
    Slash,
    /// `&`
    Ampersand,
    /// `(`
    OpenParenthesis,
    /// `)`
    CloseParenthesis,
    /// `[`
    OpenBracket,
    /// `]`
    CloseBracket,
    /// `,`
    Comma,
    /// `;`
    Semicolon,
    /// `:`
    Colon,
    /// `.`
    Dot,
    /// `..`
    DotDot,
    /// `#`
    Hash,
}

/// A token: its kind, its first byte and the byte after its last, counted from the start of the text.
#[derive(Clone, Copy, Debug, PartialEq, Eq)]
pub struct Token {
    pub kind: TokenKind,
    pub start: usize,
    pub end: usize,
}

/// The tokens of a text, in its order, and the text that was cut.
#[derive(Drop)]
pub struct Tokens<'t> {
    pub text: &'t [u8],
    pub list: Vec<Token>,
}
