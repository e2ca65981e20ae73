//! What a move names.
use cca_roles::RoleName;
use record_bodies::Label;

/// What a move names: here a role, and the label of the transport key; and the same of the other module.
#[derive(Clone, Copy, Debug, PartialEq, Eq)]
pub struct Move {
    /// The role here. It needs the access control points of CSNBKEX and CSNBKRL.
    pub role: RoleName,
    /// The label here that holds the transport key as an EXPORTER.
    pub transport: Label,
    /// The role at the other module.
    pub role_there: RoleName,
    /// The label at the other module that holds the transport key as an IMPORTER.
    pub transport_there: Label,
}
