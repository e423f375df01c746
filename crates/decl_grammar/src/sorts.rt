// The sorts of symbols by name, with the numbers of `specs/Symbols`.
// Written by tools/automaton.py from the tables of the definitions. It refuses a number that is not the table's.

/// An identifier that no `=` follows.
pub const IDENTIFIER: u8 = 0;

/// An identifier that `=` follows.
pub const NAMED: u8 = 1;

/// An integer literal.
pub const INTEGER: u8 = 2;

/// A floating-point literal.
pub const FLOATING: u8 = 3;

/// A character literal.
pub const CHARACTER: u8 = 4;

/// A string literal.
pub const TEXT: u8 = 5;

/// A text block.
pub const TEXT_BLOCK: u8 = 6;

/// `true` or `false`.
pub const TRUTH: u8 = 7;

/// `null`.
pub const NULL: u8 = 8;

/// A `@` that `interface` follows.
pub const AT_INTERFACE: u8 = 9;

/// The keyword `abstract`.
pub const ABSTRACT: u8 = 10;

/// The keyword `assert`.
pub const ASSERT: u8 = 11;

/// The keyword `boolean`.
pub const BOOLEAN: u8 = 12;

/// The keyword `break`.
pub const BREAK: u8 = 13;

/// The keyword `byte`.
pub const BYTE: u8 = 14;

/// The keyword `case`.
pub const CASE: u8 = 15;

/// The keyword `catch`.
pub const CATCH: u8 = 16;

/// The keyword `char`.
pub const CHAR: u8 = 17;

/// The keyword `class`.
pub const CLASS: u8 = 18;

/// The keyword `const`.
pub const CONST: u8 = 19;

/// The keyword `continue`.
pub const CONTINUE: u8 = 20;

/// The keyword `default`.
pub const DEFAULT: u8 = 21;

/// The keyword `do`.
pub const DO: u8 = 22;

/// The keyword `double`.
pub const DOUBLE: u8 = 23;

/// The keyword `else`.
pub const ELSE: u8 = 24;

/// The keyword `enum`.
pub const ENUM: u8 = 25;

/// The keyword `extends`.
pub const EXTENDS: u8 = 26;

/// The keyword `final`.
pub const FINAL: u8 = 27;

/// The keyword `finally`.
pub const FINALLY: u8 = 28;

/// The keyword `float`.
pub const FLOAT: u8 = 29;

/// The keyword `for`.
pub const FOR: u8 = 30;

/// The keyword `goto`.
pub const GOTO: u8 = 31;

/// The keyword `if`.
pub const IF: u8 = 32;

/// The keyword `implements`.
pub const IMPLEMENTS: u8 = 33;

/// The keyword `import`.
pub const IMPORT: u8 = 34;

/// The keyword `instanceof`.
pub const INSTANCEOF: u8 = 35;

/// The keyword `int`.
pub const INT: u8 = 36;

/// The keyword `interface`.
pub const INTERFACE: u8 = 37;

/// The keyword `long`.
pub const LONG: u8 = 38;

/// The keyword `native`.
pub const NATIVE: u8 = 39;

/// The keyword `new`.
pub const NEW: u8 = 40;

/// The keyword `package`.
pub const PACKAGE: u8 = 41;

/// The keyword `private`.
pub const PRIVATE: u8 = 42;

/// The keyword `protected`.
pub const PROTECTED: u8 = 43;

/// The keyword `public`.
pub const PUBLIC: u8 = 44;

/// The keyword `return`.
pub const RETURN: u8 = 45;

/// The keyword `short`.
pub const SHORT: u8 = 46;

/// The keyword `static`.
pub const STATIC: u8 = 47;

/// The keyword `strictfp`.
pub const STRICTFP: u8 = 48;

/// The keyword `super`.
pub const SUPER: u8 = 49;

/// The keyword `switch`.
pub const SWITCH: u8 = 50;

/// The keyword `synchronized`.
pub const SYNCHRONIZED: u8 = 51;

/// The keyword `this`.
pub const THIS: u8 = 52;

/// The keyword `throw`.
pub const THROW: u8 = 53;

/// The keyword `throws`.
pub const THROWS: u8 = 54;

/// The keyword `transient`.
pub const TRANSIENT: u8 = 55;

/// The keyword `try`.
pub const TRY: u8 = 56;

/// The keyword `void`.
pub const VOID: u8 = 57;

/// The keyword `volatile`.
pub const VOLATILE: u8 = 58;

/// The keyword `while`.
pub const WHILE: u8 = 59;

/// The keyword `_`.
pub const UNDERSCORE: u8 = 60;

/// The operator `(`.
pub const OPEN_PARENTHESIS: u8 = 61;

/// The operator `)`.
pub const CLOSE_PARENTHESIS: u8 = 62;

/// The operator `{`.
pub const OPEN_BRACE: u8 = 63;

/// The operator `}`.
pub const CLOSE_BRACE: u8 = 64;

/// The operator `[`.
pub const OPEN_BRACKET: u8 = 65;

/// The operator `]`.
pub const CLOSE_BRACKET: u8 = 66;

/// The operator `;`.
pub const SEMICOLON: u8 = 67;

/// The operator `,`.
pub const COMMA: u8 = 68;

/// The operator `.`.
pub const DOT: u8 = 69;

/// The operator `...`.
pub const ELLIPSIS: u8 = 70;

/// The operator `@`.
pub const AT: u8 = 71;

/// The operator `::`.
pub const DOUBLE_COLON: u8 = 72;

/// The operator `=`.
pub const EQUALS: u8 = 73;

/// The operator `>`.
pub const GREATER_THAN: u8 = 74;

/// The operator `<`.
pub const LESS_THAN: u8 = 75;

/// The operator `!`.
pub const EXCLAMATION: u8 = 76;

/// The operator `~`.
pub const TILDE: u8 = 77;

/// The operator `?`.
pub const QUESTION: u8 = 78;

/// The operator `:`.
pub const COLON: u8 = 79;

/// The operator `->`.
pub const ARROW: u8 = 80;

/// The operator `==`.
pub const DOUBLE_EQUALS: u8 = 81;

/// The operator `>=`.
pub const GREATER_OR_EQUAL: u8 = 82;

/// The operator `<=`.
pub const LESS_OR_EQUAL: u8 = 83;

/// The operator `!=`.
pub const NOT_EQUAL: u8 = 84;

/// The operator `&&`.
pub const DOUBLE_AMPERSAND: u8 = 85;

/// The operator `||`.
pub const DOUBLE_BAR: u8 = 86;

/// The operator `++`.
pub const INCREMENT: u8 = 87;

/// The operator `--`.
pub const DECREMENT: u8 = 88;

/// The operator `+`.
pub const PLUS: u8 = 89;

/// The operator `-`.
pub const MINUS: u8 = 90;

/// The operator `*`.
pub const STAR: u8 = 91;

/// The operator `/`.
pub const SLASH: u8 = 92;

/// The operator `&`.
pub const AMPERSAND: u8 = 93;

/// The operator `|`.
pub const BAR: u8 = 94;

/// The operator `^`.
pub const CARET: u8 = 95;

/// The operator `%`.
pub const PERCENT: u8 = 96;

/// The operator `<<`.
pub const SHIFT_LEFT: u8 = 97;

/// The operator `>>`.
pub const SHIFT_RIGHT: u8 = 98;

/// The operator `>>>`.
pub const UNSIGNED_SHIFT_RIGHT: u8 = 99;

/// The operator `+=`.
pub const PLUS_EQUALS: u8 = 100;

/// The operator `-=`.
pub const MINUS_EQUALS: u8 = 101;

/// The operator `*=`.
pub const STAR_EQUALS: u8 = 102;

/// The operator `/=`.
pub const SLASH_EQUALS: u8 = 103;

/// The operator `&=`.
pub const AMPERSAND_EQUALS: u8 = 104;

/// The operator `|=`.
pub const BAR_EQUALS: u8 = 105;

/// The operator `^=`.
pub const CARET_EQUALS: u8 = 106;

/// The operator `%=`.
pub const PERCENT_EQUALS: u8 = 107;

/// The operator `<<=`.
pub const SHIFT_LEFT_EQUALS: u8 = 108;

/// The operator `>>=`.
pub const SHIFT_RIGHT_EQUALS: u8 = 109;

/// The operator `>>>=`.
pub const UNSIGNED_SHIFT_RIGHT_EQUALS: u8 = 110;
