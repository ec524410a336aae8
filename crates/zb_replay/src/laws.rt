ghost use Rattle.zb_replay.specs.Laws.{SaysNoWrong};

/// Where platter 0 says tables, and stripes have all bytes that its entries name, no field of it is wrong.
pub fn a_platter_with_tables_is_wrong_nowhere()
    ensures { SaysNoWrong }
{}
