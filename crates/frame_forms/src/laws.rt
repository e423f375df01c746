// Functions without a task, whose contracts are the laws of the definitions.
ghost use Rattle.frame_forms.specs.BadBytes.{LengthRule, FieldsRule, TagRule, ByteRule, DeepRule, TextRule, RestRule, EndRule, OtherwiseRule};
ghost use Rattle.frame_forms.specs.Examples.{ExamplesHold};
ghost use Rattle.frame_forms.specs.FrameLaws.{HasOneSpelling, ReadingMeetsSpelling, FrontsAreBegun, NoFrameGoesOn, FirstBadIsFound, ByteByByte};
ghost use Rattle.frame_forms.specs.FieldRules.{TextsRule, DistinctRule, PatternsRule, AscendingRule, KeysRule, ItemsRule, BelowRule, BoolRule, ClaimRule, ElementRule};
ghost use Rattle.frame_forms.specs.Loosened.{BegunGoesOn};
ghost use Rattle.frame_forms.specs.Depths.{NestingDecides};

/// What holds of all frames.
pub fn frame_laws_hold()
    ensures one_spelling { HasOneSpelling }
    ensures meets { ReadingMeetsSpelling }
    ensures begun { FrontsAreBegun }
    ensures nowhere { NoFrameGoesOn }
    ensures first { FirstBadIsFound }
    ensures one_more { ByteByByte }
    ensures goes_on { BegunGoesOn }
    ensures nested { NestingDecides }
{}

/// Which byte of a frame is bad, rule by rule.
pub fn bad_byte_rules_hold()
    ensures length { LengthRule }
    ensures fields { FieldsRule }
    ensures tag { TagRule }
    ensures byte { ByteRule }
    ensures deep { DeepRule }
    ensures text { TextRule }
    ensures rest { RestRule }
    ensures end { EndRule }
    ensures otherwise { OtherwiseRule }
{}

/// What the forms of numbers, texts, elements and lists ask of a value.
pub fn field_rules_hold()
    ensures texts { TextsRule }
    ensures distinct { DistinctRule }
    ensures patterns { PatternsRule }
    ensures ascending { AscendingRule }
    ensures keys { KeysRule }
    ensures items { ItemsRule }
    ensures below { BelowRule }
    ensures truth { BoolRule }
    ensures claim { ClaimRule }
    ensures element { ElementRule }
{}

/// The frames that were worked out by hand are spelled and read as they should.
pub fn examples_hold()
    ensures { ExamplesHold }
{}
