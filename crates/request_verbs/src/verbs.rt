//! What each verb decides, over what its operands stand for. No verb sees a disk.

pub(crate) mod csnbcki;
pub(crate) mod csnbkex;
pub(crate) mod csnbkgn;
pub(crate) mod csnbkim;
pub(crate) mod csnbkpi;
pub(crate) mod csnbkrc;
pub(crate) mod csnbkrd;
pub(crate) mod csnbkrl;
pub(crate) mod csnbkrr;
pub(crate) mod csnbkrw;
pub(crate) mod csnbktc;
pub(crate) mod csnbktp;
pub(crate) mod csnbktr;
pub(crate) mod csnbkyt;
pub(crate) mod csnbmkp;
pub(crate) mod csnbpex;
pub(crate) mod csnbrng;
pub(crate) mod csuaaci;
pub(crate) mod delivering;
mod key_digits;
pub(crate) mod key_work;
mod old_labels;
pub(crate) mod reenciphering;
