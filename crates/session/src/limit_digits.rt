//! The limits of requests as literal numbers. A change of a limit in `requests`, or in `desk` of `desks`, needs the same
//! change here.
ghost use Rattle.desks.specs.declared.desk.TheConstants.{MAX_LINE};
ghost use Rattle.session.specs.declared.requests.TheConstants.{MAX_TRADES};
ghost use Rattle.std.specs.Prelude.{◌≡◌};

/// The largest number of bytes of a request, and of its pairs of contract and quantity.
pub fn requests_have_these_digits()
    ensures line { MAX_LINE ≡ 4096 }
    ensures trades { MAX_TRADES ≡ 64 }
{}
