// The bytes of a statement and of a signed statement, both ways.
ghost use Rattle.std.specs.Prelude.{◌≡◌};
ghost use Rattle.statement.specs.Layout.{IsEncoding, IsDecoding, encoded, decoded, Sized, encoded_signed, decoded_signed, SizedSigned};

use super::area::put;
use super::types::{
    COUNTER_AT, MATTER_AT, NEW_AT, OLD_AT, SIGNED_STATEMENT_SIZE, STATEMENT_SIZE, SignedStatement,
    Statement,
};

// By `put`: what five parts of one array, each written in turn, leave of it gets no proof.
impl From<Statement> for [u8; STATEMENT_SIZE] {
    ghost from_gives = { λ statement bytes. IsEncoding encoded decoded Sized statement bytes };

    fn from(statement: Statement) -> [u8; STATEMENT_SIZE] {
        let Statement {
            identity,
            counter,
            old,
            new,
            matter,
        } = statement;
        let mut bytes = [0; STATEMENT_SIZE];
        put(&mut bytes, 0, &identity);
        put(&mut bytes, COUNTER_AT, &[counter]);
        put(&mut bytes, OLD_AT, &old.to_be_bytes());
        put(&mut bytes, NEW_AT, &new.to_be_bytes());
        put(&mut bytes, MATTER_AT, &matter);
        bytes
    }
}

impl From<&[u8; STATEMENT_SIZE]> for Statement {
    ghost from_gives = { λ bytes statement. IsDecoding encoded decoded bytes.now statement };

    fn from(bytes: &[u8; STATEMENT_SIZE]) -> Statement {
        let (identity, rest) = bytes.split_first_chunk().unwrap();
        let (counter, rest) = rest.split_first().unwrap();
        let (old, rest) = rest.split_first_chunk().unwrap();
        let (new, rest) = rest.split_first_chunk().unwrap();
        let (matter, _) = rest.split_first_chunk().unwrap();
        Statement {
            identity: *identity,
            counter: *counter,
            old: u32::from_be_bytes(*old),
            new: u32::from_be_bytes(*new),
            matter: *matter,
        }
    }
}

impl From<SignedStatement> for [u8; SIGNED_STATEMENT_SIZE] {
    ghost from_gives = { λ signed bytes. IsEncoding encoded_signed decoded_signed SizedSigned signed bytes };

    fn from(signed: SignedStatement) -> [u8; SIGNED_STATEMENT_SIZE] {
        let SignedStatement { statement, tag } = signed;
        let front: [u8; STATEMENT_SIZE] = statement.into();
        let mut bytes = [0; SIGNED_STATEMENT_SIZE];
        put(&mut bytes, 0, &front);
        put(&mut bytes, STATEMENT_SIZE, &tag);
        bytes
    }
}

impl From<&[u8; SIGNED_STATEMENT_SIZE]> for SignedStatement {
    ghost from_gives = { λ bytes signed. IsDecoding encoded_signed decoded_signed bytes.now signed };

    fn from(bytes: &[u8; SIGNED_STATEMENT_SIZE]) -> SignedStatement {
        let (statement, rest) = bytes.split_first_chunk().unwrap();
        let (tag, _) = rest.split_first_chunk().unwrap();
        SignedStatement {
            statement: Statement::from(statement),
            tag: *tag,
        }
    }
}
