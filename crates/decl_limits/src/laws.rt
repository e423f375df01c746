// Laws of files within the limits.
ghost use Rattle.decl_limits.specs.Limits.{HasLegalUnits, HasLegalInfo, TokensAreTexts, FewAreNotCrowded};

/// The units of a file within the limits are legal, be it ordinary or a file `package-info.java`.
pub fn units_are_legal()
    ensures types { HasLegalUnits }
    ensures info { HasLegalInfo }
{}

/// The symbols of the tokens of a file are those of a text.
pub fn symbols_are_texts()
    ensures { TokensAreTexts }
{}

/// Symbols of which at most 32,765 within the same braces are a `,`, a `;` or a `}` have no child list that is too long.
pub fn few_are_not_crowded()
    ensures { FewAreNotCrowded }
{}
