// The documents' trade words for the refusals.
ghost use Rattle.std.specs.Prelude.{◌≡◌};
ghost use Rattle.answers.specs.TradeWords.{trade_word};

use reply::Refusal;

// The trade word of a refusal.
pub(crate) fn trade_word(refusal: Refusal) -> &'static str
    ensures { result.now ≡ trade_word refusal }
{
    match refusal {
        Refusal::WrongSize => "size",
        Refusal::NotABase => "base",
        Refusal::TooShort => "short",
        Refusal::UnequalLengths => "unequal",
        Refusal::NoSuchLoop => "loop",
        Refusal::UnknownName => "unknown",
        Refusal::TooManyGlues => "glues",
        Refusal::DuplicatePair => "twice",
        Refusal::OutOfRange => "range",
        Refusal::NullBinds => "null",
        Refusal::NotAFriend => "stranger",
        Refusal::TooManyStates => "many",
        Refusal::RankTooHigh => "rank",
        Refusal::BadDeck => "deck",
        Refusal::TooDilute => "dilute",
        Refusal::AmbientOut => "ambient",
        Refusal::PotentialOut => "potential",
        Refusal::BareScaffold => "bare",
        Refusal::WeightOut => "weight",
        Refusal::NotARing => "ring",
        Refusal::TwoStars => "stars",
        Refusal::NotAJob => "job",
        Refusal::NoneUnder => "none",
    }
}
