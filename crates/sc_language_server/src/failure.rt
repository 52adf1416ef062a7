//! Why a request has no result.

/// Why a request has no result.
#[derive(Clone, Copy)]
pub enum Failure {
    /// The body isn't JSON, or there is none.
    ParseError,
    /// It is no message, or one that doesn't belong there.
    InvalidRequest,
    /// Nothing is answered to requests of this name.
    MethodNotFound,
    /// The parameters aren't those of the request.
    InvalidParams,
    /// Memory ran out.
    OutOfMemory,
    /// The request came before `initialize`.
    NotInitialized,
    /// What is to be a new name is none.
    NotAName,
    /// With the new name the text would be refused.
    RenamingRefused,
    /// With the new name a name would mean something else.
    MeaningChanged,
}

impl Failure {
    /// The error of a response, as JSON.
    pub fn text(self) -> &'static str {
        match self {
            Failure::ParseError => r#"{"code":-32700,"message":"the message can't be read"}"#,
            Failure::InvalidRequest =>
                r#"{"code":-32600,"message":"this isn't a request that can come here"}"#,
            Failure::MethodNotFound => r#"{"code":-32601,"message":"there is no such method"}"#,
            Failure::InvalidParams =>
                r#"{"code":-32602,"message":"the parameters don't fit the method"}"#,
            Failure::OutOfMemory => r#"{"code":-32603,"message":"memory ran out"}"#,
            Failure::NotInitialized => r#"{"code":-32002,"message":"initialize comes first"}"#,
            Failure::NotAName =>
                r#"{"code":-32803,"message":"the new name is no identifier, or a reserved word"}"#,
            Failure::RenamingRefused =>
                r#"{"code":-32803,"message":"with the new name the text would be refused"}"#,
            Failure::MeaningChanged =>
                r#"{"code":-32803,"message":"with the new name a name would mean something else"}"#,
        }
    }
}
