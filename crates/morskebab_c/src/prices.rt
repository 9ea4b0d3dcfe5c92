// Tax in and out of a price, and the net for a gross. What each answers is said at the function of its name.
ghost use Rattle.std.specs.Prelude.{◌≡◌};
ghost use Rattle.tax.specs.Tax.{from_net_said, from_gross_said};
ghost use Rattle.flat.specs.Given.{passed8, passed32, amount_from};
ghost use Rattle.flat.specs.Answers.{split_of};
ghost use Rattle.morskebab.specs.NetAnswer.{NetAnswer};

use flat::{MkbAmount, MkbSplit};

#[unsafe(no_mangle)]
pub extern "C" fn mkb_tax_from_net(net: MkbAmount, rate: i64, mode: i64) -> MkbSplit
    ensures { result ≡ split_of (from_net_said (amount_from net) (passed32 rate) (passed8 mode)) }
{
    morskebab::mkb_tax_from_net(net, rate, mode)
}

#[unsafe(no_mangle)]
pub extern "C" fn mkb_tax_from_gross(gross: MkbAmount, rate: i64, mode: i64) -> MkbSplit
    ensures { result ≡ split_of (from_gross_said (amount_from gross) (passed32 rate) (passed8 mode)) }
{
    morskebab::mkb_tax_from_gross(gross, rate, mode)
}

#[unsafe(no_mangle)]
pub extern "C" fn mkb_net_for(gross: MkbAmount, rate: i64, mode: i64) -> MkbSplit
    ensures { NetAnswer gross rate mode result }
{
    morskebab::mkb_net_for(gross, rate, mode)
}
