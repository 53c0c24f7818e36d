//! The reserved words and the signs, each told by its place in its list.

ghost use Rattle.std.specs.Prelude.{◌≡◌, ◌<◌, slice_get, Some};
ghost use Rattle.scj_base.specs.Vocabulary.{words, signs};

/// The bytes of a reserved word.
pub fn word_text(index: u8) -> &'static str
    requires { index < 53 }
    ensures { slice_get words index ≡ Some result.now }
{
    WORDS[index as usize]
}

/// The bytes of a sign.
pub fn sign_text(index: u8) -> &'static str
    requires { index < 50 }
    ensures { slice_get signs index ≡ Some result.now }
{
    SIGNS[index as usize]
}

/// The reserved words.
pub const WORDS: [&str; 53] = [
    "abstract",
    "assert",
    "boolean",
    "break",
    "byte",
    "case",
    "catch",
    "char",
    "class",
    "const",
    "continue",
    "default",
    "do",
    "double",
    "else",
    "enum",
    "extends",
    "false",
    "final",
    "finally",
    "float",
    "for",
    "goto",
    "if",
    "implements",
    "import",
    "instanceof",
    "int",
    "interface",
    "long",
    "native",
    "new",
    "null",
    "package",
    "private",
    "protected",
    "public",
    "return",
    "short",
    "static",
    "strictfp",
    "super",
    "switch",
    "synchronized",
    "this",
    "throw",
    "throws",
    "transient",
    "true",
    "try",
    "void",
    "volatile",
    "while",
];

/// The signs.
pub const SIGNS: [&str; 50] = [
    "{", "}", "(", ")", "[", "]", ";", ",", ".", "@", "=", "==", "!=", "<", ">", "<=", ">=", "+",
    "-", "*", "/", "%", "!", "&&", "||", "&", "|", "^", "~", "<<", ">>", ">>>", "?", ":", "++",
    "--", "+=", "-=", "*=", "/=", "%=", "&=", "|=", "^=", "<<=", ">>=", ">>>=", "->", "::", "...",
];

/// The place of `abstract` among the words.
pub const ABSTRACT: u8 = 0;

/// The place of `boolean` among the words.
pub const BOOLEAN: u8 = 2;

/// The place of `class` among the words.
pub const CLASS: u8 = 8;

/// The place of `else` among the words.
pub const ELSE: u8 = 14;

/// The place of `extends` among the words.
pub const EXTENDS: u8 = 16;

/// The place of `false` among the words.
pub const FALSE: u8 = 17;

/// The place of `final` among the words.
pub const FINAL: u8 = 18;

/// The place of `for` among the words.
pub const FOR: u8 = 21;

/// The place of `if` among the words.
pub const IF: u8 = 23;

/// The place of `implements` among the words.
pub const IMPLEMENTS: u8 = 24;

/// The place of `import` among the words.
pub const IMPORT: u8 = 25;

/// The place of `int` among the words.
pub const INT: u8 = 27;

/// The place of `long` among the words.
pub const LONG: u8 = 29;

/// The place of `new` among the words.
pub const NEW: u8 = 31;

/// The place of `null` among the words.
pub const NULL: u8 = 32;

/// The place of `package` among the words.
pub const PACKAGE: u8 = 33;

/// The place of `private` among the words.
pub const PRIVATE: u8 = 34;

/// The place of `protected` among the words.
pub const PROTECTED: u8 = 35;

/// The place of `public` among the words.
pub const PUBLIC: u8 = 36;

/// The place of `return` among the words.
pub const RETURN: u8 = 37;

/// The place of `static` among the words.
pub const STATIC: u8 = 39;

/// The place of `super` among the words.
pub const SUPER: u8 = 41;

/// The place of `synchronized` among the words.
pub const SYNCHRONIZED: u8 = 43;

/// The place of `this` among the words.
pub const THIS: u8 = 44;

/// The place of `true` among the words.
pub const TRUE: u8 = 48;

/// The place of `void` among the words.
pub const VOID: u8 = 50;

/// The place of `while` among the words.
pub const WHILE: u8 = 52;

/// The place of `{` among the signs.
pub const LEFT_BRACE: u8 = 0;

/// The place of `}` among the signs.
pub const RIGHT_BRACE: u8 = 1;

/// The place of `(` among the signs.
pub const LEFT_PARENTHESIS: u8 = 2;

/// The place of `)` among the signs.
pub const RIGHT_PARENTHESIS: u8 = 3;

/// The place of `[` among the signs.
pub const LEFT_BRACKET: u8 = 4;

/// The place of `]` among the signs.
pub const RIGHT_BRACKET: u8 = 5;

/// The place of `;` among the signs.
pub const SEMICOLON: u8 = 6;

/// The place of `,` among the signs.
pub const COMMA: u8 = 7;

/// The place of `.` among the signs.
pub const DOT: u8 = 8;

/// The place of `@` among the signs.
pub const AT: u8 = 9;

/// The place of `=` among the signs.
pub const ASSIGN: u8 = 10;

/// The place of `==` among the signs.
pub const EQUAL: u8 = 11;

/// The place of `!=` among the signs.
pub const NOT_EQUAL: u8 = 12;

/// The place of `<` among the signs.
pub const LESS: u8 = 13;

/// The place of `>` among the signs.
pub const GREATER: u8 = 14;

/// The place of `<=` among the signs.
pub const LESS_EQUAL: u8 = 15;

/// The place of `>=` among the signs.
pub const GREATER_EQUAL: u8 = 16;

/// The place of `+` among the signs.
pub const PLUS: u8 = 17;

/// The place of `-` among the signs.
pub const MINUS: u8 = 18;

/// The place of `*` among the signs.
pub const STAR: u8 = 19;

/// The place of `/` among the signs.
pub const SLASH: u8 = 20;

/// The place of `%` among the signs.
pub const PERCENT: u8 = 21;

/// The place of `!` among the signs.
pub const NOT: u8 = 22;

/// The place of `&&` among the signs.
pub const AND_AND: u8 = 23;

/// The place of `||` among the signs.
pub const OR_OR: u8 = 24;

/// The place of `&` among the signs.
pub const AND: u8 = 25;

/// The place of `|` among the signs.
pub const OR: u8 = 26;

/// The place of `^` among the signs.
pub const XOR: u8 = 27;

/// The place of `~` among the signs.
pub const TILDE: u8 = 28;

/// The place of `<<` among the signs.
pub const SHIFT_LEFT: u8 = 29;

/// The place of `>>` among the signs.
pub const SHIFT_RIGHT: u8 = 30;

/// The place of `>>>` among the signs.
pub const SHIFT_RIGHT_UNSIGNED: u8 = 31;

/// The place of `++` among the signs.
pub const PLUS_PLUS: u8 = 34;

/// The place of `--` among the signs.
pub const MINUS_MINUS: u8 = 35;

/// The place of `+=` among the signs.
pub const PLUS_ASSIGN: u8 = 36;

/// The place of `-=` among the signs.
pub const MINUS_ASSIGN: u8 = 37;

/// The place of `*=` among the signs.
pub const STAR_ASSIGN: u8 = 38;

/// The place of `/=` among the signs.
pub const SLASH_ASSIGN: u8 = 39;

/// The place of `%=` among the signs.
pub const PERCENT_ASSIGN: u8 = 40;

/// The place of `&=` among the signs.
pub const AND_ASSIGN: u8 = 41;

/// The place of `|=` among the signs.
pub const OR_ASSIGN: u8 = 42;

/// The place of `^=` among the signs.
pub const XOR_ASSIGN: u8 = 43;

/// The place of `<<=` among the signs.
pub const SHIFT_LEFT_ASSIGN: u8 = 44;

/// The place of `>>=` among the signs.
pub const SHIFT_RIGHT_ASSIGN: u8 = 45;

/// The place of `>>>=` among the signs.
pub const SHIFT_RIGHT_UNSIGNED_ASSIGN: u8 = 46;
