//! Laws of plain spellings over any table of rows that have them (Intel SDM volume 2, 2.1 to 2.3).
