// Tax in and out of a price, and the net for a gross.
ghost use Rattle.std.specs.Prelude.{◌≡◌};
ghost use Rattle.tax.specs.Tax.{from_net_said, from_gross_said};
ghost use Rattle.flat.specs.Given.{passed8, passed32, amount_from};
ghost use Rattle.flat.specs.Answers.{split_of};
ghost use Rattle.morskebab.specs.NetAnswer.{NetAnswer};

use flat::{MkbAmount, MkbSplit, pass_u8, pass_u32};
use tax::{net_for_gross, tax_from_gross, tax_from_net};

// tax = net x rate / 1,000,000 rounded by the mode, gross = net + tax: refusals 1, 2, 3, 4, 6, 13.
pub fn mkb_tax_from_net(net: MkbAmount, rate: i64, mode: i64) -> MkbSplit
    ensures { result ≡ split_of (from_net_said (amount_from net) (passed32 rate) (passed8 mode)) }
{
    tax_from_net(net.into(), pass_u32(rate), pass_u8(mode)).into()
}

// tax = gross x rate / (1,000,000 + rate) rounded by the mode, net = gross - tax: refusals 1, 2, 3, 4, 6.
pub fn mkb_tax_from_gross(gross: MkbAmount, rate: i64, mode: i64) -> MkbSplit
    ensures { result ≡ split_of (from_gross_said (amount_from gross) (passed32 rate) (passed8 mode)) }
{
    tax_from_gross(gross.into(), pass_u32(rate), pass_u8(mode)).into()
}

// The price of the only net that has this gross: refusals 1, 2, 3, 4, 6, and 15 where no net has it.
pub fn mkb_net_for(gross: MkbAmount, rate: i64, mode: i64) -> MkbSplit
    ensures { NetAnswer gross rate mode result }
{
    net_for_gross(gross.into(), pass_u32(rate), pass_u8(mode)).into()
}
