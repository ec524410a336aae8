ghost use Rattle.zb_log.specs.Runs.{GivesNoAddressTwice};

/// Whatever calls are made of a log, in any order, no address is given twice.
pub fn no_address_twice()
    ensures { GivesNoAddressTwice }
{}
