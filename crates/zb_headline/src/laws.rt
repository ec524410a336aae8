ghost use Rattle.zb_headline.specs.Calm.{CalmIsFaultless, RowsReasoned};
ghost use Rattle.zb_headline.specs.Wrong.{WrongClaims};

/// Where no event and no rebuild came before, and no device failed, a line that has a reason tells no fault.
pub fn calm_is_faultless()
    ensures { CalmIsFaultless }
{}

/// The lines of the worked rows have their reasons by the events alone.
pub fn rows_reasoned()
    ensures { RowsReasoned }
{}

/// Claims that no run may make don't hold.
pub fn wrong_claims_fail()
    ensures { WrongClaims }
{}
