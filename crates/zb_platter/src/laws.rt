ghost use Rattle.zb_platter.specs.Laws.{NoneNames, SaysOne, SystemOnce};

/// An image says one value of the tables, in one system.
pub fn an_image_says_one_value()
    ensures tables { SaysOne }
    ensures system { SystemOnce }
{}

/// Where no entry is found that names a stripe, each names others alone.
pub fn no_entry_names_a_stripe()
    ensures { NoneNames }
{}
