//! What holds of every value, whatever writes it.
ghost use Rattle.std.specs.Prelude.{◌↔◌, ◌++◌, ℕ, List, []};
ghost use Rattle.scenario_words.specs.Places.{Place, PlaceValue};
ghost use Rattle.scenario_words.specs.Spelling.{Spells};
ghost use Rattle.scenario_words.specs.ValueFitting.{HasWords};
ghost use Rattle.scenario_words.specs.ValueWords.{words_for};

/// A value has words at a place exactly where some words spell it there, and then those that are written for it do.
pub fn values_have_words_where_some_words_spell_them()
    ensures exact { (place : Place) (value : PlaceValue place)
        → HasWords place value ↔ ((words : List (List ℕ)) × Spells place value words []) }
    ensures written { (place : Place) (value : PlaceValue place) → HasWords place value → Spells place value (words_for place value) [] }
{}
