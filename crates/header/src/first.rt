// Record 0 of the held form.
ghost use Rattle.std.specs.Prelude.{◌+◌, ◌≤◌, length};
ghost use Rattle.octets.specs.Area.{Wrote};
ghost use Rattle.header.specs.First.{first_record};

use octets::area::copy;

// Record 0, which is the same for every cell.
pub fn put_first(out: &mut [u8], at: usize) -> usize
    requires { at + 1561 ≤ length out.old }
    ensures { Wrote out.old at first_record out.new result }
{
    copy(
        b"015613LE1 0900201 ! 3404\
          0000123000000010430123DSID1650166DSSI1130331DSPM1300444FRID1000574FOID0700674ATTF0590744\
          NATF0680803FFPT0860871FSPT0900957VRID0781047ATTV0581125VRPT0761183SG2D0481259SG3D0531307\
          \x1e\
          0000;&   \x1f0001DSIDDSIDDSSI0001DSPM0001FRIDFRIDFOIDFRIDATTFFRIDNATFFRIDFFPTFRIDFSPT0001VRIDVRIDATTVVRIDVRPTV\
          RIDSG2DVRIDSG3D\x1e\
          0500;&   ISO 8211 Record Identifier\x1f\x1f(b12)\x1e\
          1600;&   Data set identification field\x1fRCNM!RCID!EXPP!INTU!DSNM!EDTN!UPDN!UADT!ISDT!STED!PRSP!PSDN!PRED!PRO\
          F!AGEN!COMT\x1f(b11,b14,2b11,3A,2A(8),R(4),b11,2A,b11,b12,A)\x1e\
          1600;&   Data set structure information field\x1fDSTR!AALL!NALL!NOMR!NOCR!NOGR!NOLR!NOIN!NOCN!NOED!NOFA\x1f(3b\
          11,8b14)\x1e\
          1600;&   Data set parameter field\x1fRCNM!RCID!HDAT!VDAT!SDAT!CSCL!DUNI!HUNI!PUNI!COUN!COMF!SOMF!COMT\x1f(b11,\
          b14,3b11,b14,4b11,2b14,A)\x1e\
          1600;&   Feature record identifier field\x1fRCNM!RCID!PRIM!GRUP!OBJL!RVER!RUIN\x1f(b11,b14,2b11,2b12,b11)\x1e\
          1600;&   Feature object identifier field\x1fAGEN!FIDN!FIDS\x1f(b12,b14,b12)\x1e\
          2600;&-A Feature record attribute field\x1f*ATTL!ATVL\x1f(b12,A)\x1e\
          2600;&-A Feature record national attribute field\x1f*ATTL!ATVL\x1f(b12,A)\x1e\
          2000;&   Feature record to feature object pointer field\x1f*LNAM!RIND!COMT\x1f(B(64),b11,A)\x1e\
          2000;&   Feature record to spatial record pointer field\x1f*NAME!ORNT!USAG!MASK\x1f(B(40),3b11)\x1e\
          1600;&   Vector record identifier field\x1fRCNM!RCID!RVER!RUIN\x1f(b11,b14,b12,b11)\x1e\
          2600;&   Vector record attribute field\x1f*ATTL!ATVL\x1f(b12,A)\x1e\
          2000;&   Vector record pointer field\x1f*NAME!ORNT!USAG!TOPI!MASK\x1f(B(40),4b11)\x1e\
          2200;&   2-D Coordinate field\x1f*YCOO!XCOO\x1f(2b24)\x1e\
          2200;&   3-D Coordinate field\x1f*YCOO!XCOO!VE3D\x1f(3b24)\x1e",
        out,
        at,
    )
}
